// What is reported of an argument of an own function that may leave its input's range.

ghost use Rattle.std.specs.Prelude.{OnOk};
ghost use Rattle.base_texts.specs.Puts.{Puts};
ghost use Rattle.il_statics.specs.Names.{function_named};
ghost use Rattle.reasons_ranges.specs.RangeReasons.{first_text, first_by, further_text, further_by, operands_told, inputs_told, function_told};

use crate::range_divisors::put_value;
use crate::range_operands::{lies_in, range_at};
use il_semantics::known::Known;
use il_statics::elementary::declared_limits;
use il_syntax::tree::{Operand, Reference, Scalar};
use load_scope::UnitScope;
use ranges_interval::Interval;
use ranges_pass::PlaceFacts;
use reasons_names::writing::put_three;
use reasons_types::range_words::{put_range, put_scalar};
use std::alloc::AllocError;

// `the first input of F takes INT (0..9), and the result is 0..300`
fn put_first_input(
    text: &mut String,
    name: &str,
    scalar: Scalar,
    range: Interval,
) -> Result<(), AllocError>
    ensures { OnOk result (Puts text.old text.new (first_text name.now scalar range)) }
{
    put_three(text, "the first input of ", name, " takes ")?;
    put_scalar(text, scalar)?;
    put_range(text, ", and the result is ", range, "\n")
}

// The line of a first input, where it and the current result have a range, and the result may leave the input's.
fn put_first(
    text: &mut String,
    name: &str,
    scalar: Option<Scalar>,
    current: Option<Known>,
) -> Result<(), AllocError>
    ensures { OnOk result (Puts text.old text.new (first_by name.now scalar current)) }
{
    match (scalar, current) {
        (Some(scalar), Some(Known::Ranged(_, range))) => {
            if lies_in(range, declared_limits(scalar)) {
                Ok(())
            } else {
                put_first_input(text, name, scalar, range)
            }
        }
        _ => Ok(()),
    }
}

// `an input of F takes INT (0..9), and the value N is 0..300`
fn put_further_input(
    text: &mut String,
    name: &str,
    scalar: Scalar,
    reference: &Reference,
    range: Interval,
) -> Result<(), AllocError>
    ensures { OnOk result (Puts text.old text.new
        (further_text name.now scalar reference.now range)) }
{
    put_three(text, "an input of ", name, " takes ")?;
    put_scalar(text, scalar)?;
    put_value(text, reference, range)
}

// The line of a further input, where it and the operand have a range, and the operand may leave the input's.
fn put_further(
    text: &mut String,
    name: &str,
    scalar: Option<Scalar>,
    reference: &Reference,
    range: Option<Interval>,
) -> Result<(), AllocError>
    ensures { OnOk result (Puts text.old text.new
        (further_by name.now scalar reference.now range)) }
{
    match (scalar, range) {
        (Some(scalar), Some(range)) => {
            if lies_in(range, declared_limits(scalar)) {
                Ok(())
            } else {
                put_further_input(text, name, scalar, reference, range)
            }
        }
        _ => Ok(()),
    }
}

// Of the operands of an own function, by the types of its inputs after the first.
fn put_operands(
    text: &mut String,
    unit: &UnitScope,
    known: &PlaceFacts,
    name: &str,
    scalars: &[Option<Scalar>],
    operands: &[Operand],
) -> Result<(), AllocError>
    ensures { OnOk result (Puts text.old text.new
        (operands_told unit.now known.now name.now scalars.now operands.now)) }
{
    let Some((scalar, scalars)) = scalars.split_first() else {
        return Ok(());
    };
    let Some((operand, operands)) = operands.split_first() else {
        return Ok(());
    };
    let range = range_at(unit, known, &operand.reference);
    put_further(text, name, *scalar, &operand.reference, range)?;
    put_operands(text, unit, known, name, scalars, operands)
}

// Of its current result and its operands, by the types of its inputs.
fn put_inputs(
    text: &mut String,
    unit: &UnitScope,
    known: &PlaceFacts,
    name: &str,
    operands: &[Operand],
    scalars: &[Option<Scalar>],
) -> Result<(), AllocError>
    ensures { OnOk result (Puts text.old text.new
        (inputs_told unit.now known.now name.now operands.now scalars.now)) }
{
    let Some((scalar, scalars)) = scalars.split_first() else {
        return Ok(());
    };
    put_first(text, name, *scalar, known.result())?;
    put_operands(text, unit, known, name, scalars, operands)
}

/// Of an own function.
pub fn put_function(
    text: &mut String,
    unit: &UnitScope,
    known: &PlaceFacts,
    name: &str,
    operands: &[Operand],
) -> Result<(), AllocError>
    ensures { OnOk result (Puts text.old text.new
        (function_told unit.now known.now name.now operands.now
        (function_named unit.now.config name.now))) }
{
    match unit.own_inputs(name) {
        Some(scalars) => put_inputs(text, unit, known, name, operands, scalars),
        None => Ok(()),
    }
}
