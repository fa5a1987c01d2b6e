// What is reported of a divisor that may be 0.

ghost use Rattle.std.specs.Prelude.{◌≡◌, ◌++◌, OnOk, codes};
ghost use Rattle.base_texts.specs.Puts.{Puts};
ghost use Rattle.ranges_pass.specs.Kinds.{is_division};
ghost use Rattle.reasons_types.specs.RangeWords.{ends_text, reference_text};
ghost use Rattle.reasons_ranges.specs.RangeReasons.{operand_name, divided_by, inner_text, divisor_text, value_text};

use crate::range_operands::range_at;
use il_semantics::known::Known;
use il_syntax::tree::{Arithmetic, Instruction, Operator, Reference};
use load_scope::UnitScope;
use ranges_interval::Interval;
use ranges_pass::PlaceFacts;
use reasons_types::range_words::{put_range, put_reference};
use std::alloc::AllocError;

// ` D`
fn put_spaced(text: &mut String, reference: &Reference) -> Result<(), AllocError>
    ensures { OnOk result (Puts text.old text.new (codes " " ++ reference_text reference.now)) }
{
    text.push_str(" ")?;
    put_reference(text, reference)
}

// ` D`, the name of an operand that has one.
fn put_name(text: &mut String, reference: &Reference) -> Result<(), AllocError>
    ensures { OnOk result (Puts text.old text.new (operand_name reference.now)) }
{
    match reference {
        Reference::Literal(_) => Ok(()),
        Reference::Variable(_) => put_spaced(text, reference),
        Reference::Element(_, _) => put_spaced(text, reference),
        Reference::Member(_, _) => put_spaced(text, reference),
    }
}

// A piece, and ` D is 0..5`
fn put_named_range(
    text: &mut String,
    head: &str,
    reference: &Reference,
    range: Interval,
) -> Result<(), AllocError>
    ensures { OnOk result (Puts text.old text.new
        (head.now ++ (operand_name reference.now ++
        (codes " is " ++ (ends_text range ++ codes "\n"))))) }
{
    text.push_str(head)?;
    put_name(text, reference)?;
    put_range(text, " is ", range, "\n")
}

/// `, and the value N is 0..5`
pub fn put_value(
    text: &mut String,
    reference: &Reference,
    range: Interval,
) -> Result<(), AllocError>
    ensures { OnOk result (Puts text.old text.new (value_text reference.now range)) }
{
    put_named_range(text, ", and the value", reference, range)
}

// Whether an operator divides.
fn is_division(operator: Operator) -> bool
    ensures { result ≡ is_division operator }
{
    matches!(
        operator,
        Operator::Arithmetic(Arithmetic::Div) | Operator::Arithmetic(Arithmetic::Mod)
    )
}

// The line of a divisor, of an operator that divides, where there is a range.
fn put_divided_by(
    text: &mut String,
    operator: Operator,
    reference: &Reference,
    range: Option<Interval>,
) -> Result<(), AllocError>
    ensures { OnOk result (Puts text.old text.new (divided_by operator reference.now range)) }
{
    if !is_division(operator) {
        return Ok(());
    }
    match range {
        Some(range) => put_named_range(text, "the divisor", reference, range),
        None => Ok(()),
    }
}

// `the divisor in the parentheses is 0..5`
fn put_inner_range(text: &mut String, range: Interval) -> Result<(), AllocError>
    ensures { OnOk result (Puts text.old text.new
        (codes "the divisor in the parentheses is " ++ (ends_text range ++ codes "\n"))) }
{
    put_range(text, "the divisor in the parentheses is ", range, "\n")
}

// Of what `)` divides by, the current result.
fn put_inner(text: &mut String, current: Option<Known>) -> Result<(), AllocError>
    ensures { OnOk result (Puts text.old text.new (inner_text current)) }
{
    match current {
        Some(Known::Ranged(_, range)) => put_inner_range(text, range),
        Some(Known::Flag) => Ok(()),
        None => Ok(()),
    }
}

/// Of an instruction.
pub fn put_divisor(
    text: &mut String,
    unit: &UnitScope,
    known: &PlaceFacts,
    instruction: &Instruction,
) -> Result<(), AllocError>
    ensures { OnOk result (Puts text.old text.new
        (divisor_text unit.now known.now instruction.now)) }
{
    match instruction {
        Instruction::Operate { operator, operand } => {
            let range = range_at(unit, known, &operand.reference);
            put_divided_by(text, *operator, &operand.reference, range)
        }
        Instruction::Evaluate => put_inner(text, known.result()),
        _ => Ok(()),
    }
}
