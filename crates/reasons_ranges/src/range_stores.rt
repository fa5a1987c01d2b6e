// What is reported of a stored value that may leave its variable's range.

ghost use Rattle.std.specs.Prelude.{OnOk};
ghost use Rattle.base_texts.specs.Puts.{Puts};
ghost use Rattle.reasons_ranges.specs.RangeReasons.{into_text, stored_text, result_text, store_text};

use crate::range_operands::scalar_named;
use il_semantics::known::Known;
use il_syntax::tree::{Instruction, Reference, Scalar, Unit};
use load_scope::UnitScope;
use ranges_interval::Interval;
use ranges_pass::PlaceFacts;
use reasons_types::range_words::{put, put_ends, put_reference, put_scalar, put_where};
use std::alloc::AllocError;

// ` into V : INT (0..9), declared in line 3`
fn put_into(
    text: &mut String,
    unit: &Unit,
    target: &Reference,
    scalar: Scalar,
) -> Result<(), AllocError>
    ensures { OnOk result (Puts text.old text.new (into_text unit.now target.now scalar)) }
{
    text.push_str(" into ")?;
    put_reference(text, target)?;
    text.push_str(" : ")?;
    put_scalar(text, scalar)?;
    put_where(text, unit, target)?;
    text.push_str("\n")
}

// `stores 0..10 into V : INT (0..9), declared in line 3`
fn put_stored(
    text: &mut String,
    unit: &Unit,
    range: Interval,
    target: &Reference,
    scalar: Scalar,
) -> Result<(), AllocError>
    ensures { OnOk result (Puts text.old text.new (stored_text unit.now range target.now scalar)) }
{
    put(text, "stores ")?;
    put_ends(text, range)?;
    put_into(text, unit, target, scalar)
}

// The line of a store, where the current result has a range and the target a scalar type.
fn put_result(
    text: &mut String,
    unit: &UnitScope,
    target: &Reference,
    current: Option<Known>,
) -> Result<(), AllocError>
    ensures { OnOk result (Puts text.old text.new (result_text unit.now target.now current)) }
{
    match current {
        Some(Known::Ranged(_, range)) => match scalar_named(unit, target) {
            Some(scalar) => put_stored(text, unit.tree(), range, target, scalar),
            None => Ok(()),
        },
        Some(Known::Flag) => Ok(()),
        None => Ok(()),
    }
}

/// Of a store.
pub fn put_store(
    text: &mut String,
    unit: &UnitScope,
    known: &PlaceFacts,
    instruction: &Instruction,
) -> Result<(), AllocError>
    ensures { OnOk result (Puts text.old text.new (store_text unit.now known.now instruction.now)) }
{
    match instruction {
        Instruction::Store { target, .. } => {
            put_result(text, unit, &target.reference, known.result())
        }
        _ => Ok(()),
    }
}
