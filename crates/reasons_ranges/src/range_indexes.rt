// What is reported of an index that may lie outside of its array.

ghost use Rattle.std.specs.Prelude.{◌≡◌, OnOk};
ghost use Rattle.base_texts.specs.Puts.{Puts};
ghost use Rattle.reasons_ranges.specs.RangeReasons.{index_range, array_has_text, outside_text, element_text, operand_index_text, argument_index_text, operands_index_text, arguments_index_text, indexes_text};

use crate::range_operands::{bounds_named, lies_within, only};
use il_syntax::tree::{Argument, Index, Instruction, Operand, Reference, Subrange, Unit};
use load_scope::UnitScope;
use ranges_interval::Interval;
use ranges_pass::PlaceFacts;
use reasons_names::writing::put_three;
use reasons_types::range_words::{put, put_ends, put_index_name, put_limits, put_line_of};
use std::alloc::AllocError;

// The range of an index.
fn index_range(known: &PlaceFacts, index: &Index) -> Option<Interval>
    ensures { result ≡ index_range known.now index.now }
{
    match index {
        Index::Number(number) => Some(only(*number)),
        Index::Variable(name) => known.range(name.as_str()),
    }
}

// `, and A has 1..8, declared in line 4`
fn put_array_has(
    text: &mut String,
    unit: &Unit,
    name: &str,
    bounds: Subrange,
) -> Result<(), AllocError>
    ensures { OnOk result (Puts text.old text.new (array_has_text unit.now name.now bounds)) }
{
    put_three(text, ", and ", name, " has ")?;
    put_limits(text, bounds)?;
    put_line_of(text, unit, name)?;
    text.push_str("\n")
}

// `the index I is 0..9, and A has 1..8, declared in line 4`
fn put_outside(
    text: &mut String,
    unit: &Unit,
    name: &str,
    index: &Index,
    range: Interval,
    bounds: Subrange,
) -> Result<(), AllocError>
    ensures { OnOk result (Puts text.old text.new
        (outside_text unit.now name.now index.now range bounds)) }
{
    put(text, "the index")?;
    put_index_name(text, index)?;
    put(text, " is ")?;
    put_ends(text, range)?;
    put_array_has(text, unit, name, bounds)
}

// The line of an index of an array, whose range may lie outside the array's.
fn put_element(
    text: &mut String,
    unit: &UnitScope,
    name: &str,
    index: &Index,
    range: Option<Interval>,
) -> Result<(), AllocError>
    ensures { OnOk result (Puts text.old text.new
        (element_text unit.now name.now index.now range)) }
{
    let Some(range) = range else {
        return Ok(());
    };
    match bounds_named(unit, name) {
        Some(bounds) => {
            if lies_within(range, bounds) {
                Ok(())
            } else {
                put_outside(text, unit.tree(), name, index, range, bounds)
            }
        }
        None => Ok(()),
    }
}

// Of an operand.
fn put_operand(
    text: &mut String,
    unit: &UnitScope,
    known: &PlaceFacts,
    reference: &Reference,
) -> Result<(), AllocError>
    ensures { OnOk result (Puts text.old text.new
        (operand_index_text unit.now known.now reference.now)) }
{
    match reference {
        Reference::Element(name, index) => {
            put_element(text, unit, name.as_str(), index, index_range(known, index))
        }
        _ => Ok(()),
    }
}

// Of an argument.
fn put_argument(
    text: &mut String,
    unit: &UnitScope,
    known: &PlaceFacts,
    argument: &Argument,
) -> Result<(), AllocError>
    ensures { OnOk result (Puts text.old text.new
        (argument_index_text unit.now known.now argument.now)) }
{
    match argument {
        Argument::Input { operand, .. } => put_operand(text, unit, known, &operand.reference),
        Argument::Output { .. } => Ok(()),
    }
}

// Of operands, in the written order.
fn put_operands(
    text: &mut String,
    unit: &UnitScope,
    known: &PlaceFacts,
    operands: &[Operand],
) -> Result<(), AllocError>
    ensures { OnOk result (Puts text.old text.new
        (operands_index_text unit.now known.now operands.now)) }
{
    'operands: for operand in operands {
        put_operand(text, unit, known, &operand.reference)?;
    }
    Ok(())
}

// Of arguments, in the written order.
fn put_arguments(
    text: &mut String,
    unit: &UnitScope,
    known: &PlaceFacts,
    arguments: &[Argument],
) -> Result<(), AllocError>
    ensures { OnOk result (Puts text.old text.new
        (arguments_index_text unit.now known.now arguments.now)) }
{
    'arguments: for argument in arguments {
        put_argument(text, unit, known, argument)?;
    }
    Ok(())
}

/// Of an instruction.
pub fn put_indexes(
    text: &mut String,
    unit: &UnitScope,
    known: &PlaceFacts,
    instruction: &Instruction,
) -> Result<(), AllocError>
    ensures { OnOk result (Puts text.old text.new
        (indexes_text unit.now known.now instruction.now)) }
{
    match instruction {
        Instruction::Load { operand, .. } => put_operand(text, unit, known, &operand.reference),
        Instruction::Store { target, .. } => put_operand(text, unit, known, &target.reference),
        Instruction::Operate { operand, .. } => put_operand(text, unit, known, &operand.reference),
        Instruction::Defer { first, .. } => match first {
            Some(operand) => put_operand(text, unit, known, &operand.reference),
            None => Ok(()),
        },
        Instruction::Call { arguments, .. } => {
            put_arguments(text, unit, known, arguments.as_slice())
        }
        Instruction::Invoke { operands, .. } => {
            put_operands(text, unit, known, operands.as_slice())
        }
        _ => Ok(()),
    }
}
