// What is reported of an argument of an instance that may leave its input's range, and of an output that may leave its target's.

ghost use Rattle.std.specs.Prelude.{◌≡◌, flat_map, OnOk};
ghost use Rattle.base_texts.specs.Puts.{Puts};
ghost use Rattle.reasons_ranges.specs.RangeReasons.{of_text, input_text, input_by, output_text, limits_in, output_by, argument_text, aim_text, arguments_text};

use crate::range_divisors::put_value;
use crate::range_inputs::put_function;
use crate::range_operands::{lies_in, range_at};
use il_statics::elementary::declared_limits;
use il_syntax::tree::{Argument, Instruction, Reference, Scalar, Subrange, Unit};
use load_scope::UnitScope;
use ranges_interval::Interval;
use ranges_pass::PlaceFacts;
use reasons_names::writing::{put_three, put_two};
use reasons_types::range_words::{put_line_of, put_scalar};
use std::alloc::AllocError;

// `input PV of C takes `
fn put_of(
    text: &mut String,
    kind: &str,
    word: &str,
    instance: &str,
    verb: &str,
) -> Result<(), AllocError>
    ensures { OnOk result (Puts text.old text.new
        (of_text kind.now word.now instance.now verb.now)) }
{
    put_two(text, kind, word)?;
    put_three(text, " of ", instance, verb)
}

// `input PV of C takes INT (0..100), and the value N is 0..300`
fn put_input(
    text: &mut String,
    instance: &str,
    word: &str,
    scalar: Scalar,
    reference: &Reference,
    range: Interval,
) -> Result<(), AllocError>
    ensures { OnOk result (Puts text.old text.new
        (input_text instance.now word.now scalar reference.now range)) }
{
    put_of(text, "input ", word, instance, " takes ")?;
    put_scalar(text, scalar)?;
    put_value(text, reference, range)
}

// The line of an input, where it and the value have a range, and the value may leave the input's.
fn put_input_by(
    text: &mut String,
    instance: &str,
    word: &str,
    reference: &Reference,
    scalar: Option<Scalar>,
    range: Option<Interval>,
) -> Result<(), AllocError>
    ensures { OnOk result (Puts text.old text.new
        (input_by instance.now word.now reference.now scalar range)) }
{
    match (scalar, range) {
        (Some(scalar), Some(range)) => {
            if lies_in(range, declared_limits(scalar)) {
                Ok(())
            } else {
                put_input(text, instance, word, scalar, reference, range)
            }
        }
        _ => Ok(()),
    }
}

// `, and the target is V : INT (0..9), declared in line 3`
fn put_aim(text: &mut String, unit: &Unit, target: &str, aim: Scalar) -> Result<(), AllocError>
    ensures { OnOk result (Puts text.old text.new (aim_text unit.now target.now aim)) }
{
    put_three(text, ", and the target is ", target, " : ")?;
    put_scalar(text, aim)?;
    put_line_of(text, unit, target)?;
    text.push_str("\n")
}

// `output CV of C is INT (-32768..32767), and the target is V : INT (0..9), declared in line 3`
fn put_output(
    text: &mut String,
    unit: &Unit,
    instance: &str,
    word: &str,
    scalar: Scalar,
    target: &str,
    aim: Scalar,
) -> Result<(), AllocError>
    ensures { OnOk result (Puts text.old text.new
        (output_text unit.now instance.now word.now scalar target.now aim)) }
{
    put_of(text, "output ", word, instance, " is ")?;
    put_scalar(text, scalar)?;
    put_aim(text, unit, target, aim)
}

// Whether limits lie within others.
fn limits_in(limits: Option<Subrange>, others: Option<Subrange>) -> bool
    ensures { result ≡ limits_in limits others }
{
    match (limits, others) {
        (Some(limits), Some(others)) => {
            others.lower <= limits.lower && limits.upper <= others.upper
        }
        _ => true,
    }
}

// The line of an output, where it and its target have a scalar type, and the output may leave the target's range.
fn put_output_by(
    text: &mut String,
    unit: &Unit,
    instance: &str,
    word: &str,
    scalar: Option<Scalar>,
    target: &str,
    aim: Option<Scalar>,
) -> Result<(), AllocError>
    ensures { OnOk result (Puts text.old text.new
        (output_by unit.now instance.now word.now scalar target.now aim)) }
{
    match (scalar, aim) {
        (Some(scalar), Some(aim)) => {
            if limits_in(declared_limits(scalar), declared_limits(aim)) {
                Ok(())
            } else {
                put_output(text, unit, instance, word, scalar, target, aim)
            }
        }
        _ => Ok(()),
    }
}

// Of an argument of an instance.
fn put_argument(
    text: &mut String,
    unit: &UnitScope,
    known: &PlaceFacts,
    instance: &str,
    argument: &Argument,
) -> Result<(), AllocError>
    ensures { OnOk result (Puts text.old text.new
        (argument_text unit.now known.now instance.now argument.now)) }
{
    match argument {
        Argument::Input { word, operand } => {
            let word = word.name.as_str();
            let scalar = unit.input_scalar(instance, word);
            let range = range_at(unit, known, &operand.reference);
            put_input_by(text, instance, word, &operand.reference, scalar, range)
        }
        Argument::Output { word, target } => {
            let word = word.name.as_str();
            let scalar = unit.output_scalar(instance, word);
            let target = target.name.as_str();
            let aim = unit.scalar(target);
            put_output_by(text, unit.tree(), instance, word, scalar, target, aim)
        }
    }
}

// Of the arguments of an instance, in the written order.
fn put_each(
    text: &mut String,
    unit: &UnitScope,
    known: &PlaceFacts,
    instance: &str,
    arguments: &[Argument],
) -> Result<(), AllocError>
    ensures { OnOk result (Puts text.old text.new
        (flat_map (argument_text unit.now known.now instance.now) arguments.now)) }
{
    'arguments: for argument in arguments {
        put_argument(text, unit, known, instance, argument)?;
    }
    Ok(())
}

/// Of an instruction.
pub fn put_arguments(
    text: &mut String,
    unit: &UnitScope,
    known: &PlaceFacts,
    instruction: &Instruction,
) -> Result<(), AllocError>
    ensures { OnOk result (Puts text.old text.new
        (arguments_text unit.now known.now instruction.now)) }
{
    match instruction {
        Instruction::Call {
            instance,
            arguments,
            ..
        } => put_each(
            text,
            unit,
            known,
            instance.name.as_str(),
            arguments.as_slice(),
        ),
        Instruction::Invoke { function, operands } => {
            put_function(
                text,
                unit,
                known,
                function.name.as_str(),
                operands.as_slice(),
            )
        }
        _ => Ok(()),
    }
}
