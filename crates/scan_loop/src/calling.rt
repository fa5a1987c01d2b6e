// What calls give to a body and take from it.

ghost use Rattle.std.specs.Prelude.{◌≡◌, [], IsSome, Some, true};
ghost use Rattle.il_syntax.specs.declared.tree.Elementary.TheVariants.{Int};
ghost use Rattle.load_slots.specs.Layout.{rows};
ghost use Rattle.scan_step.specs.Effect.{with_some, operand, read, write, boolean_of, number_of};
ghost use Rattle.scan_loop.specs.Going.{acts, assigned, copied, passed};
ghost use Rattle.scan_loop.specs.Quick.{is_timer, flat_of, standard, called_behind};
ghost use Rattle.scan_step.specs.Current.{left_of};

use crate::quick::{Quick, Wide};
use il_syntax::tree::Condition;
use load_slots::flat::{Assignment, Copied, Flat, Operand, Slot};
use scan_step::blocks::call_block;
use scan_step::current::Current;
use scan_step::rows::{boolean_of, element, flag, number, number_of, put_flag, put_number, write};

// The Boolean of a slot that has one.
#[inline(always)]
fn truth_at(flags: &[bool], base: usize, slot: Slot) -> bool
    requires { IsSome (with_some (read (rows [] flags.now) base slot) (λ c. boolean_of c.value)) }
    ensures { with_some (read (rows [] flags.now) base slot) (λ c. boolean_of c.value)
        ≡ Some result }
{
    match slot {
        Slot::Flag(offset) => flag(flags, base, offset),
        Slot::Number(_, _) => unreachable!(),
    }
}

// The number of a slot that has one.
#[inline(always)]
fn number_at(numbers: &[i64], base: usize, slot: Slot) -> i64
    requires { IsSome (with_some (read (rows numbers.now []) base slot) (λ c. number_of c.value)) }
    ensures { with_some (read (rows numbers.now []) base slot) (λ c. number_of c.value)
        ≡ Some result }
{
    match slot {
        Slot::Flag(_) => unreachable!(),
        Slot::Number(_, offset) => number(numbers, base, offset),
    }
}

// The Boolean that an operand gives.
#[inline(always)]
fn truth_given(numbers: &[i64], flags: &[bool], base: usize, from: &Operand) -> bool
    requires { IsSome (with_some (operand (rows numbers.now flags.now) base Int from.now)
        (λ c. boolean_of c.value)) }
    ensures { with_some (operand (rows numbers.now flags.now) base Int from.now)
        (λ c. boolean_of c.value) ≡ Some result }
{
    match *from {
        Operand::Constant(constant) => boolean_of(constant.value),
        Operand::At(slot) => truth_at(flags, base, slot),
        Operand::Element {
            first,
            bounds,
            index,
        } => truth_at(flags, element(numbers, base, bounds, index), first),
        _ => unreachable!(),
    }
}

// The number that an operand gives.
#[inline(always)]
fn number_given(numbers: &[i64], flags: &[bool], base: usize, from: &Operand) -> i64
    requires { IsSome (with_some (operand (rows numbers.now flags.now) base Int from.now)
        (λ c. number_of c.value)) }
    ensures { with_some (operand (rows numbers.now flags.now) base Int from.now)
        (λ c. number_of c.value) ≡ Some result }
{
    let _flags = flags;
    match *from {
        Operand::Constant(constant) => number_of(constant.value),
        Operand::Bare(number) => number,
        Operand::At(slot) => number_at(numbers, base, slot),
        Operand::Element {
            first,
            bounds,
            index,
        } => number_at(numbers, element(numbers, base, bounds, index), first),
        Operand::Outside => unreachable!(),
    }
}

// An input that is given what another slot or element has, from the frame at a base to that at another.
#[inline(always)]
fn give_read(numbers: &mut [i64], flags: &mut [bool], base: usize, to: usize, input: &Assignment)
    requires { IsSome (with_some (operand (rows numbers.old flags.old) base Int input.now.from)
        (λ c. write (rows numbers.old flags.old) to input.now.to c)) }
    ensures { with_some (operand (rows numbers.old flags.old) base Int input.now.from)
        (λ c. write (rows numbers.old flags.old) to input.now.to c)
        ≡ Some (rows numbers.new flags.new) }
{
    match input.to {
        Slot::Flag(slot) => {
            let given = truth_given(numbers, flags, base, &input.from);
            put_flag(flags, to, slot, given);
        }
        Slot::Number(_, slot) => {
            let given = number_given(numbers, flags, base, &input.from);
            put_number(numbers, to, slot, given);
        }
    }
}

// One input, from the frame at a base to that at another.
#[inline(always)]
fn give(numbers: &mut [i64], flags: &mut [bool], base: usize, to: usize, input: &Assignment)
    requires { IsSome (with_some (operand (rows numbers.old flags.old) base Int input.now.from)
        (λ c. write (rows numbers.old flags.old) to input.now.to c)) }
    ensures { with_some (operand (rows numbers.old flags.old) base Int input.now.from)
        (λ c. write (rows numbers.old flags.old) to input.now.to c)
        ≡ Some (rows numbers.new flags.new) }
{
    match input.from {
        Operand::Constant(constant) => write(numbers, flags, to, input.to, constant),
        _ => give_read(numbers, flags, base, to, input),
    }
}

/// The inputs of a call, in the written order.
#[inline(always)]
pub fn assign(numbers: &mut [i64], flags: &mut [bool], base: usize, inputs: &[Assignment])
    requires { IsSome (assigned inputs.now (rows numbers.old flags.old) base) }
    ensures { assigned inputs.now (rows numbers.old flags.old) base
        ≡ Some (rows numbers.new flags.new) }
{
    for input in inputs {
        give(numbers, flags, base, base, input);
    }
}

/// The inputs of a function's frame, whose operands are read in the frame that calls.
#[inline(always)]
pub fn pass(numbers: &mut [i64], flags: &mut [bool], base: usize, to: usize, inputs: &[Assignment])
    requires { IsSome (passed inputs.now (rows numbers.old flags.old) base to) }
    ensures { passed inputs.now (rows numbers.old flags.old) base to
        ≡ Some (rows numbers.new flags.new) }
{
    for input in inputs {
        give(numbers, flags, base, to, input);
    }
}

// One output.
#[inline(always)]
fn take(numbers: &mut [i64], flags: &mut [bool], base: usize, output: &Copied)
    requires { IsSome (with_some (read (rows numbers.old flags.old) base output.now.from)
        (λ c. write (rows numbers.old flags.old) base output.now.to c)) }
    ensures { with_some (read (rows numbers.old flags.old) base output.now.from)
        (λ c. write (rows numbers.old flags.old) base output.now.to c)
        ≡ Some (rows numbers.new flags.new) }
{
    match output.to {
        Slot::Flag(slot) => {
            let kept = truth_at(flags, base, output.from);
            put_flag(flags, base, slot, kept);
        }
        Slot::Number(_, slot) => {
            let kept = number_at(numbers, base, output.from);
            put_number(numbers, base, slot, kept);
        }
    }
}

/// The outputs of a call, in the written order.
#[inline(always)]
pub fn copy(numbers: &mut [i64], flags: &mut [bool], base: usize, outputs: &[Copied])
    requires { IsSome (copied outputs.now (rows numbers.old flags.old) base) }
    ensures { copied outputs.now (rows numbers.old flags.old) base
        ≡ Some (rows numbers.new flags.new) }
{
    for output in outputs {
        take(numbers, flags, base, output);
    }
}

/// Whether an instruction with C or CN acts.
#[inline(always)]
pub fn acts_on(condition: Condition, current: &Current) -> bool
    requires { IsSome (acts condition (left_of current.now)) }
    ensures { acts condition (left_of current.now) ≡ Some result }
{
    match condition {
        Condition::Always => true,
        Condition::WhenTrue => current.is_true(),
        Condition::WhenFalse => !current.is_true(),
    }
}

// A call of a standard block that acts, on the rows after some in front. It is a function of its own, so that the loop keeps its registers.
#[cold]
#[inline(never)]
fn call_behind(
    front: &[i64],
    numbers: &mut [i64],
    flags: &mut [bool],
    clock: usize,
    instruction: &Flat,
)
    requires { IsSome (called_behind front.now clock instruction.now (rows numbers.old flags.old)) }
    ensures { called_behind front.now clock instruction.now (rows numbers.old flags.old)
        ≡ Some (rows numbers.new flags.new) }
{
    match instruction {
        Flat::CallStandard {
            block,
            base,
            inputs,
            outputs,
            ..
        } => {
            assign(numbers, flags, 0, inputs.as_slice());
            call_block(front, numbers, flags, *block, clock, *base);
            copy(numbers, flags, 0, outputs.as_slice());
        }
        _ => unreachable!(),
    }
}

/// A call of a standard block that acts, or does not, on the rows after some in front.
#[inline(always)]
pub fn call_standard(
    front: &[i64],
    numbers: &mut [i64],
    flags: &mut [bool],
    clock: usize,
    current: &Current,
    instruction: &Flat,
)
    requires { IsSome (standard front.now clock instruction.now (rows numbers.old flags.old)
        (left_of current.now)) }
    ensures { standard front.now clock instruction.now (rows numbers.old flags.old)
        (left_of current.now) ≡ Some (rows numbers.new flags.new) }
{
    match instruction {
        Flat::CallStandard { condition, .. } => {
            if acts_on(*condition, current) {
                call_behind(front, numbers, flags, clock, instruction);
            }
        }
        _ => unreachable!(),
    }
}

/// A call of a timer.
#[cold]
#[inline(never)]
pub fn call_timer(
    front: &[i64],
    numbers: &mut [i64],
    flags: &mut [bool],
    clock: usize,
    quick: &Quick,
)
    requires timer { is_timer quick.now ≡ true }
    requires some { IsSome (called_behind front.now clock (flat_of quick.now)
        (rows numbers.old flags.old)) }
    ensures { called_behind front.now clock (flat_of quick.now) (rows numbers.old flags.old)
        ≡ Some (rows numbers.new flags.new) }
{
    match *quick {
        Quick::Wide(Wide::Timer(kind, call)) => {
            let base = usize::from(call.base);
            let input = flag(flags, 0, usize::from(call.input));
            put_flag(flags, 0, base, input);
            put_number(numbers, 0, base + 1, i64::from(call.preset));
            call_block(front, numbers, flags, kind.block(), clock, base);
        }
        _ => unreachable!(),
    }
}
