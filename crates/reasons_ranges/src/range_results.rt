// What is reported of a result that may leave its type.

ghost use Rattle.std.specs.Prelude.{◌≡◌, ◌++◌, OnOk, true, codes};
ghost use Rattle.base_texts.specs.Puts.{Puts};
ghost use Rattle.il_syntax.specs.ElementaryTypes.{plain};
ghost use Rattle.ranges_interval.specs.Interval.{IsOperand};
ghost use Rattle.ranges_laws.specs.Found.{combined};
ghost use Rattle.reasons_types.specs.RangeWords.{scalar_text};
ghost use Rattle.reasons_ranges.specs.RangeReasons.{sign_text, is_end, is_operand, given_from, left_text, operated_text, operated_by, sides_text, operator_text, known_range, evaluated_text, converted_unless, absolute_text, absolute_of, function_text, invoked_text, overflow_text};

use crate::range_operands::{lies_in, range_at};
use il_semantics::known::{Known, KnownDeferred};
use il_statics::elementary::limits;
use il_statics::names::StandardFunction;
use il_syntax::tree::{Arithmetic, Elementary, Instruction, Operator, Reference, Scalar};
use load_scope::UnitScope;
use load_scope::functions::standard_function;
use ranges_interval::Interval;
use ranges_pass::PlaceFacts;
use ranges_transfer::may_be_zero;
use reasons_types::range_words::{put, put_ends, put_range, put_scalar};
use std::alloc::AllocError;

// An elementary type without a subrange.
fn plain(elementary: Elementary) -> Scalar
    ensures { result ≡ plain elementary }
{
    Scalar {
        elementary,
        subrange: None,
    }
}

// The sign of an operation.
fn sign_text(kind: Arithmetic) -> &'static str
    ensures { result.now ≡ sign_text kind }
{
    match kind {
        Arithmetic::Add => " + ",
        Arithmetic::Sub => " - ",
        Arithmetic::Mul => " * ",
        Arithmetic::Div => " / ",
        Arithmetic::Mod => " MOD ",
    }
}

// What an operation gives for all values of its sides; nothing where a divisor may be 0.
fn combined(kind: Arithmetic, left: Interval, right: Interval) -> Option<Interval>
    requires left { IsOperand left }
    requires right { IsOperand right }
    ensures { result ≡ combined kind left right }
{
    match kind {
        Arithmetic::Add => Some(left.add(right)),
        Arithmetic::Sub => Some(left.sub(right)),
        Arithmetic::Mul => Some(left.mul(right)),
        Arithmetic::Div => {
            if may_be_zero(right) {
                None
            } else {
                Some(left.div(right))
            }
        }
        Arithmetic::Mod => {
            if may_be_zero(right) {
                None
            } else {
                Some(left.mod_(right))
            }
        }
    }
}

// Whether a number is a DINT or a UDINT.
fn is_end(number: i128) -> bool
    ensures { result ≡ is_end number }
{
    -2_147_483_648 <= number && number <= 4_294_967_295
}

// Whether a range can be an operand.
fn is_operand(range: Interval) -> bool
    ensures is { result ≡ is_operand range }
    ensures operand { result ≡ true → IsOperand range }
{
    is_end(range.lo) && is_end(range.hi) && range.lo <= range.hi
}

// What an operation gives, where its sides can be operands.
fn given_from(kind: Arithmetic, left: Interval, right: Interval) -> Option<Interval>
    ensures { result ≡ given_from kind left right }
{
    if is_operand(left) && is_operand(right) {
        combined(kind, left, right)
    } else {
        None
    }
}

// ` gives 0..300, outside SINT (-128..127)`
fn put_left(text: &mut String, elementary: Elementary, range: Interval) -> Result<(), AllocError>
    ensures { OnOk result (Puts text.old text.new (left_text elementary range)) }
{
    put_range(text, " gives ", range, ", outside ")?;
    put_scalar(text, plain(elementary))?;
    text.push_str("\n")
}

// `0..200 + 0..100 gives 0..300, outside SINT (-128..127)`
fn put_operated(
    text: &mut String,
    elementary: Elementary,
    kind: Arithmetic,
    left: Interval,
    right: Interval,
    given: Interval,
) -> Result<(), AllocError>
    ensures { OnOk result (Puts text.old text.new
        (operated_text elementary kind left right given)) }
{
    put_ends(text, left)?;
    text.push_str(sign_text(kind))?;
    put_ends(text, right)?;
    put_left(text, elementary, given)
}

// The line of an operation whose range is not of the type.
fn put_operated_by(
    text: &mut String,
    elementary: Elementary,
    kind: Arithmetic,
    left: Interval,
    right: Interval,
    given: Option<Interval>,
) -> Result<(), AllocError>
    ensures { OnOk result (Puts text.old text.new (operated_by elementary kind left right given)) }
{
    match given {
        Some(given) => {
            if lies_in(given, limits(elementary)) {
                Ok(())
            } else {
                put_operated(text, elementary, kind, left, right, given)
            }
        }
        None => Ok(()),
    }
}

// The line of an operation both of whose sides have a range.
fn put_sides(
    text: &mut String,
    kind: Arithmetic,
    left: Option<Known>,
    right: Option<Interval>,
) -> Result<(), AllocError>
    ensures { OnOk result (Puts text.old text.new (sides_text kind left right)) }
{
    match left {
        Some(Known::Ranged(elementary, left)) => match right {
            Some(right) => {
                let given = given_from(kind, left, right);
                put_operated_by(text, elementary, kind, left, right, given)
            }
            None => Ok(()),
        },
        Some(Known::Flag) => Ok(()),
        None => Ok(()),
    }
}

// Of an operator.
fn put_operator(
    text: &mut String,
    unit: &UnitScope,
    known: &PlaceFacts,
    operator: Operator,
    reference: &Reference,
) -> Result<(), AllocError>
    ensures { OnOk result (Puts text.old text.new
        (operator_text unit.now known.now operator reference.now)) }
{
    match operator {
        Operator::Arithmetic(kind) => {
            put_sides(text, kind, known.result(), range_at(unit, known, reference))
        }
        _ => Ok(()),
    }
}

// ` is outside SINT (-128..127)`
fn put_outside(text: &mut String, scalar: Scalar) -> Result<(), AllocError>
    ensures { OnOk result (Puts text.old text.new
        (codes " is outside " ++ (scalar_text scalar ++ codes "\n"))) }
{
    put(text, " is outside ")?;
    put_scalar(text, scalar)?;
    put(text, "\n")
}

// `0..300 is outside SINT (-128..127)`, where it is.
fn put_converted_unless(
    text: &mut String,
    to: Elementary,
    range: Interval,
) -> Result<(), AllocError>
    ensures { OnOk result (Puts text.old text.new (converted_unless to range)) }
{
    if lies_in(range, limits(to)) {
        Ok(())
    } else {
        put_ends(text, range)?;
        put_outside(text, plain(to))
    }
}

// `ABS of -128..5 gives 0..128, outside SINT (-128..127)`
fn put_absolute(
    text: &mut String,
    elementary: Elementary,
    range: Interval,
) -> Result<(), AllocError>
    requires { IsOperand range }
    ensures { OnOk result (Puts text.old text.new (absolute_text elementary range)) }
{
    text.push_str("ABS of ")?;
    put_ends(text, range)?;
    put_left(text, elementary, range.abs())
}

// The line of ABS of a range that can be an operand, where it leaves the type.
fn put_absolute_of(
    text: &mut String,
    elementary: Elementary,
    range: Interval,
) -> Result<(), AllocError>
    ensures { OnOk result (Puts text.old text.new (absolute_of elementary range)) }
{
    if !is_operand(range) {
        return Ok(());
    }
    if lies_in(range.abs(), limits(elementary)) {
        Ok(())
    } else {
        put_absolute(text, elementary, range)
    }
}

// Of a standard function on the current result.
fn put_function(
    text: &mut String,
    function: StandardFunction,
    elementary: Elementary,
    range: Interval,
) -> Result<(), AllocError>
    ensures { OnOk result (Puts text.old text.new (function_text function elementary range)) }
{
    match function {
        StandardFunction::Converted(_, to) => put_converted_unless(text, to, range),
        StandardFunction::Absolute => put_absolute_of(text, elementary, range),
        _ => Ok(()),
    }
}

// The line of a standard function, if it is one, on a current result that has a range.
fn put_invoked(
    text: &mut String,
    function: Option<StandardFunction>,
    current: Option<Known>,
) -> Result<(), AllocError>
    ensures { OnOk result (Puts text.old text.new (invoked_text function current)) }
{
    match current {
        Some(Known::Ranged(elementary, range)) => match function {
            Some(function) => put_function(text, function, elementary, range),
            None => Ok(()),
        },
        Some(Known::Flag) => Ok(()),
        None => Ok(()),
    }
}

// The range of what is known of a value, if it has one.
fn known_range(known: Option<Known>) -> Option<Interval>
    ensures { result ≡ known_range known }
{
    match known {
        Some(Known::Ranged(_, range)) => Some(range),
        Some(Known::Flag) => None,
        None => None,
    }
}

// Of a `)`.
fn put_evaluated(
    text: &mut String,
    deferred: &[KnownDeferred],
    right: Option<Known>,
) -> Result<(), AllocError>
    ensures { OnOk result (Puts text.old text.new (evaluated_text deferred.now right)) }
{
    match deferred {
        [] => Ok(()),
        [innermost, ..] => match innermost.operator {
            Operator::Arithmetic(kind) => {
                put_sides(text, kind, Some(innermost.left), known_range(right))
            }
            _ => Ok(()),
        },
    }
}

/// Of an instruction.
pub fn put_overflow(
    text: &mut String,
    unit: &UnitScope,
    known: &PlaceFacts,
    instruction: &Instruction,
) -> Result<(), AllocError>
    ensures { OnOk result (Puts text.old text.new
        (overflow_text unit.now known.now instruction.now)) }
{
    match instruction {
        Instruction::Operate { operator, operand } => {
            put_operator(text, unit, known, *operator, &operand.reference)
        }
        Instruction::Evaluate => put_evaluated(text, known.deferred(), known.result()),
        Instruction::Invoke { function, .. } => {
            let standard = standard_function(function.name.as_str());
            put_invoked(text, standard, known.result())
        }
        _ => Ok(()),
    }
}
