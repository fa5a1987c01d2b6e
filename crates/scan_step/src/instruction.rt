// One instruction that goes on to the next.

ghost use Rattle.std.specs.Prelude.{◌≡◌, IsSome, Some, None, true, false, pos, nat_abs};
ghost use Rattle.std.specs.Int.{int_min, int_max};
ghost use Rattle.il_syntax.specs.declared.tree.Arithmetic.TheVariants.{Add, Sub, Mul, Div, Mod};
ghost use Rattle.il_semantics.specs.Step.{logic, negated_if, truth, content, compared, chosen, integer_equal};
ghost use Rattle.il_semantics.specs.declared.value.Value.TheVariants.{Integer};
ghost use Rattle.il_semantics.specs.declared.value.Content.{Content as Left};
ghost use Rattle.il_statics.specs.declared.names.StandardFunction.TheVariants.{Limited};
ghost use Rattle.load_slots.specs.Layout.{rows};
ghost use Rattle.scan_step.specs.Effect.{with_some, place, operand, number_left, computed, compared_as, operated, applied_alone, applied_to, applied_to_both, applied, loaded, stored, effect, is_straight, from_base};

use crate::rows::{Rows, boolean_of, element, number_of, read, write};
use il_semantics::value::{Content, Value};
use il_statics::names::StandardFunction;
use il_syntax::tree::{Arithmetic, Comparison, Elementary, Logic, Operator, Store};
use load_slots::flat::{Flat, Operand, Slot};

// A Boolean with its type.
#[inline(always)]
fn truth(value: bool) -> Content
    ensures { result ≡ truth value }
{
    Content {
        elementary: Elementary::Bool,
        value: Value::Boolean(value),
    }
}

// A number with its type.
#[inline(always)]
fn content(elementary: Elementary, number: i64) -> Content
    ensures { result ≡ content elementary (Integer number) }
{
    Content {
        elementary,
        value: Value::Integer(number),
    }
}

// A Boolean, or its negation.
#[inline(always)]
pub fn negated_if(negated: bool, value: bool) -> bool
    ensures { result ≡ negated_if negated value }
{
    if negated { !value } else { value }
}

// AND, OR and XOR.
#[inline(always)]
pub fn connected(kind: Logic, left: bool, right: bool) -> bool
    ensures { result ≡ logic kind left right }
{
    match kind {
        Logic::Conjunction => left && right,
        Logic::Disjunction => left || right,
        Logic::Exclusive => { if left { !right } else { right } }
    }
}

// A sum in a type that has it.
#[inline(always)]
pub fn sum(elementary: Elementary, left: i64, right: i64) -> i64
    requires { IsSome (computed Add elementary left right) }
    ensures { computed Add elementary left right ≡ Some (content elementary (Integer result)) }
{
    let _elementary = elementary;
    left + right
}

// A difference in a type that has it.
#[inline(always)]
pub fn difference(elementary: Elementary, left: i64, right: i64) -> i64
    requires { IsSome (computed Sub elementary left right) }
    ensures { computed Sub elementary left right ≡ Some (content elementary (Integer result)) }
{
    let _elementary = elementary;
    left - right
}

// A product in a type that has it.
#[inline(always)]
pub fn product(elementary: Elementary, left: i64, right: i64) -> i64
    requires { IsSome (computed Mul elementary left right) }
    ensures { computed Mul elementary left right ≡ Some (content elementary (Integer result)) }
{
    let _elementary = elementary;
    left * right
}

// A quotient in a type that has it. DIV truncates toward zero.
#[inline(always)]
pub fn quotient(elementary: Elementary, left: i64, right: i64) -> i64
    requires { IsSome (computed Div elementary left right) }
    ensures { computed Div elementary left right ≡ Some (content elementary (Integer result)) }
{
    let _elementary = elementary;
    left / right
}

// What it leaves, in a type that has it.
#[inline(always)]
pub fn remainder(elementary: Elementary, left: i64, right: i64) -> i64
    requires { IsSome (computed Mod elementary left right) }
    ensures { computed Mod elementary left right ≡ Some (content elementary (Integer result)) }
{
    let _elementary = elementary;
    left.wrapping_rem(right)
}

// What arithmetic gives, in a type that has it.
#[inline(always)]
fn computed(kind: Arithmetic, elementary: Elementary, left: i64, right: i64) -> Content
    requires { IsSome (computed kind elementary left right) }
    ensures { computed kind elementary left right ≡ Some result }
{
    match kind {
        Arithmetic::Add => content(elementary, sum(elementary, left, right)),
        Arithmetic::Sub => content(elementary, difference(elementary, left, right)),
        Arithmetic::Mul => content(elementary, product(elementary, left, right)),
        Arithmetic::Div => content(elementary, quotient(elementary, left, right)),
        Arithmetic::Mod => content(elementary, remainder(elementary, left, right)),
    }
}

// A comparison of numbers.
#[inline(always)]
pub fn compared(kind: Comparison, left: i64, right: i64) -> bool
    ensures { result ≡ compared kind left right }
{
    match kind {
        Comparison::Greater => left > right,
        Comparison::GreaterOrEqual => left >= right,
        Comparison::Equal => left == right,
        Comparison::NotEqual => left != right,
        Comparison::LessOrEqual => left <= right,
        Comparison::Less => left < right,
    }
}

// A comparison. EQ and NE alone compare Booleans.
#[inline(always)]
fn compared_as(kind: Comparison, left: Value, right: Value) -> Content
    requires { IsSome (compared_as kind left right) }
    ensures { compared_as kind left right ≡ Some result }
{
    match (left, right) {
        (Value::Integer(x), Value::Integer(y)) => truth(compared(kind, x, y)),
        (Value::Boolean(x), Value::Boolean(y)) => match kind {
            Comparison::Equal => truth(!connected(Logic::Exclusive, x, y)),
            Comparison::NotEqual => truth(connected(Logic::Exclusive, x, y)),
            _ => unreachable!(),
        },
        _ => unreachable!(),
    }
}

// `left OP right`
#[inline(always)]
pub fn operated(operator: Operator, left: Content, right: Content) -> Content
    requires { IsSome (operated operator left right) }
    ensures { operated operator left right ≡ Some result }
{
    match operator {
        Operator::Logic { logic, negated } => truth(connected(
            logic,
            boolean_of(left.value),
            negated_if(negated, boolean_of(right.value)),
        )),
        Operator::Arithmetic(kind) => computed(
            kind,
            left.elementary,
            number_of(left.value),
            number_of(right.value),
        ),
        Operator::Comparison(kind) => compared_as(kind, left.value, right.value),
    }
}

// What a load leaves of an operand.
#[inline(always)]
fn loaded(negated: bool, operand: Content) -> Content
    requires { IsSome (loaded negated operand) }
    ensures { loaded negated operand ≡ Some result }
{
    if negated {
        truth(!boolean_of(operand.value))
    } else {
        operand
    }
}

// The absolute value of a number, in a type that has it.
#[inline(always)]
pub fn magnitude(elementary: Elementary, number: i64) -> i64
    requires { IsSome (number_left elementary (pos (nat_abs number))) }
    ensures { number_left elementary (pos (nat_abs number))
        ≡ Some (content elementary (Integer result)) }
{
    let _elementary = elementary;
    number.abs()
}

// A standard function of the current result alone (2.5.1.5).
#[inline(always)]
fn applied_alone(function: StandardFunction, first: Content) -> Content
    requires { IsSome (applied_alone function first) }
    ensures { applied_alone function first ≡ Some result }
{
    match function {
        StandardFunction::Absolute => content(
            first.elementary,
            magnitude(first.elementary, number_of(first.value)),
        ),
        StandardFunction::Converted(_, to) => content(to, number_of(first.value)),
        _ => unreachable!(),
    }
}

// MIN and MAX.
#[inline(always)]
fn applied_to(function: StandardFunction, first: Content, second: Content) -> Content
    requires { IsSome (applied_to function first second) }
    ensures { applied_to function first second ≡ Some result }
{
    let x = number_of(first.value);
    let y = number_of(second.value);
    match function {
        StandardFunction::Minimum => content(first.elementary, x.min(y)),
        StandardFunction::Maximum => content(first.elementary, x.max(y)),
        _ => unreachable!(),
    }
}

// LIMIT(MN, IN, MX) = MIN(MAX(IN, MN), MX)
#[inline(always)]
fn limited(least: Content, input: Content, most: Content) -> Content
    requires { IsSome (applied_to_both Limited least input most) }
    ensures { applied_to_both Limited least input most ≡ Some result }
{
    let raised = number_of(input.value).max(number_of(least.value));
    content(least.elementary, raised.min(number_of(most.value)))
}

// SEL: IN0 where G is FALSE, IN1 where it is TRUE.
#[inline(always)]
fn chosen(selector: bool, in0: Content, in1: Content) -> Content
    ensures { result ≡ chosen selector in0 in1 }
{
    if selector { in1 } else { in0 }
}

// LIMIT and SEL.
#[inline(always)]
fn applied_to_both(
    function: StandardFunction,
    first: Content,
    second: Content,
    third: Content,
) -> Content
    requires { IsSome (applied_to_both function first second third) }
    ensures { applied_to_both function first second third ≡ Some result }
{
    match function {
        StandardFunction::Limited => limited(first, second, third),
        StandardFunction::Selected => chosen(boolean_of(first.value), second, third),
        _ => unreachable!(),
    }
}

// A standard function of the current result and further operands.
#[inline(always)]
fn applied(
    function: StandardFunction,
    numbers: &[i64],
    flags: &[bool],
    base: usize,
    first: Content,
    operands: &[Operand],
) -> Content
    requires { IsSome (applied function (rows numbers.now flags.now) base first operands.now) }
    ensures { applied function (rows numbers.now flags.now) base first operands.now ≡ Some result }
{
    match operands {
        [] => applied_alone(function, first),
        [second] => applied_to(
            function,
            first,
            operand_at(numbers, flags, base, first.elementary, second),
        ),
        [second, third] => applied_to_both(
            function,
            first,
            operand_at(numbers, flags, base, first.elementary, second),
            operand_at(numbers, flags, base, first.elementary, third),
        ),
        _ => unreachable!(),
    }
}

/// What an operand gives.
#[inline(always)]
pub fn operand_at(
    numbers: &[i64],
    flags: &[bool],
    base: usize,
    wanted: Elementary,
    from: &Operand,
) -> Content
    requires { IsSome (operand (rows numbers.now flags.now) base wanted from.now) }
    ensures { operand (rows numbers.now flags.now) base wanted from.now ≡ Some result }
{
    match *from {
        Operand::Constant(constant) => constant,
        Operand::Bare(number) => content(wanted, number),
        Operand::At(slot) => read(numbers, flags, base, slot),
        Operand::Element {
            first,
            bounds,
            index,
        } => read(numbers, flags, element(numbers, base, bounds, index), first),
        Operand::Outside => unreachable!(),
    }
}

/// A store into the variable of an operand.
#[inline(always)]
pub fn store(
    numbers: &mut [i64],
    flags: &mut [bool],
    base: usize,
    kind: Store,
    target: &Operand,
    put: Content,
)
    requires { IsSome (with_some (place (rows numbers.old flags.old) base target.now)
        (λ p. stored kind (rows numbers.old flags.old) p put)) }
    ensures { with_some (place (rows numbers.old flags.old) base target.now)
        (λ p. stored kind (rows numbers.old flags.old) p put)
        ≡ Some (rows numbers.new flags.new) }
{
    match *target {
        Operand::At(slot) => put_down(numbers, flags, base, slot, kind, put),
        Operand::Element {
            first,
            bounds,
            index,
        } => {
            let at = element(numbers, base, bounds, index);
            put_down(numbers, flags, at, first, kind, put);
        }
        _ => unreachable!(),
    }
}

// A store at a slot.
#[inline(always)]
fn put_down(
    numbers: &mut [i64],
    flags: &mut [bool],
    base: usize,
    slot: Slot,
    kind: Store,
    put: Content,
)
    requires { IsSome (stored kind (rows numbers.old flags.old) (from_base base slot) put) }
    ensures { stored kind (rows numbers.old flags.old) (from_base base slot) put
        ≡ Some (rows numbers.new flags.new) }
{
    match kind {
        Store::Plain => write(numbers, flags, base, slot, put),
        Store::Negated => write(numbers, flags, base, slot, truth(!boolean_of(put.value))),
        Store::Set => {
            if boolean_of(put.value) {
                write(numbers, flags, base, slot, truth(true));
            }
        }
        Store::Reset => {
            if boolean_of(put.value) {
                write(numbers, flags, base, slot, truth(false));
            }
        }
    }
}

/// What an instruction that goes on to the next does to the rows, and the current result that it leaves; none where the
/// instruction is another.
#[inline(always)]
pub fn exec_at(
    numbers: &mut [i64],
    flags: &mut [bool],
    base: usize,
    before: Option<Content>,
    instruction: &Flat,
) -> Option<Content>
    requires { is_straight instruction.now ≡ true
        → IsSome (effect instruction.now (rows numbers.old flags.old) base before) }
    ensures goes_on { (c : Left) → result ≡ Some c
        → effect instruction.now (rows numbers.old flags.old) base before
        ≡ Some ((rows numbers.new flags.new), c) }
    ensures other { result ≡ None
        → (is_straight instruction.now ≡ false) × (numbers.new ≡ numbers.old)
        × (flags.new ≡ flags.old) }
    ensures straight { IsSome result → is_straight instruction.now ≡ true }
{
    match (instruction, before) {
        (
            Flat::Load {
                negated,
                operand: from,
            },
            _,
        ) => Some(loaded(
            *negated,
            operand_at(numbers, flags, base, Elementary::Int, from),
        )),
        (
            Flat::Store {
                store: kind,
                target,
            },
            Some(left),
        ) => {
            store(numbers, flags, base, *kind, target, left);
            Some(left)
        }
        (Flat::Not, Some(left)) => Some(loaded(true, left)),
        (
            Flat::Operate {
                operator,
                operand: from,
            },
            Some(left),
        ) => Some(operated(
            *operator,
            left,
            operand_at(numbers, flags, base, left.elementary, from),
        )),
        (Flat::Apply { function, operands }, Some(left)) => Some(applied(
            *function,
            numbers,
            flags,
            base,
            left,
            operands.as_slice(),
        )),
        _ => None,
    }
}

/// What an operand gives, over rows.
pub fn operand(rows: &Rows, base: usize, wanted: Elementary, from: &Operand) -> Content
    requires { IsSome (operand rows.now base wanted from.now) }
    ensures { operand rows.now base wanted from.now ≡ Some result }
{
    operand_at(
        rows.numbers.as_slice(),
        rows.flags.as_slice(),
        base,
        wanted,
        from,
    )
}

/// Whether an instruction goes on to the next, and needs no more than the rows and the current result.
#[inline(always)]
pub fn is_straight(instruction: &Flat) -> bool
    ensures { result ≡ is_straight instruction.now }
{
    match instruction {
        Flat::Load { .. }
        | Flat::Store { .. }
        | Flat::Not
        | Flat::Operate { .. }
        | Flat::Apply { .. } => true,
        _ => false,
    }
}

/// What such an instruction does to rows, and the current result that it leaves.
pub fn exec(rows: &mut Rows, base: usize, before: Option<Content>, instruction: &Flat) -> Content
    requires straight { is_straight instruction.now ≡ true }
    requires some { IsSome (effect instruction.now rows.old base before) }
    ensures { effect instruction.now rows.old base before ≡ Some (rows.new, result) }
{
    let numbers = rows.numbers.as_mut_slice();
    let flags = rows.flags.as_mut_slice();
    match exec_at(numbers, flags, base, before, instruction) {
        Some(left) => left,
        None => unreachable!(),
    }
}
