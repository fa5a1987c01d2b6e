// What is reported of the targets of an instruction (33, 38).

ghost use Rattle.std.specs.Prelude.{OnOk, flat_map};
ghost use Rattle.base_texts.specs.Puts.{Puts};
ghost use Rattle.reasons_names.specs.NamesTargets.{name_text, target_text, argument_text, targets_text};

use crate::names_stores::{put_literal_line, put_member, put_variable};
use crate::names_tasks::put_stored;
use il_syntax::tree::{Argument, Instruction, Reference};
use load_scope::UnitScope;
use std::alloc::{AllocError, Global};

/// Adds what is reported of the targets of an instruction: of 38 the tasks that store into each global, if there are two; otherwise
/// what each is that may not be stored into (own rule).
pub fn put_targets(
    alloc: Global,
    text: &mut String,
    here: &UnitScope<'_>,
    number: u16,
    instruction: &Instruction,
) -> Result<(), AllocError>
    ensures { OnOk result (Puts text.old text.new
        (targets_text here.now.config here.now.unit number instruction.now)) }
{
    match instruction {
        Instruction::Store { target, .. } => {
            put_target(alloc, text, here, number, &target.reference)
        }
        Instruction::Call { arguments, .. } => {
            put_arguments(alloc, text, here, number, arguments.as_slice())
        }
        _ => Ok(()),
    }
}

fn put_arguments(
    alloc: Global,
    text: &mut String,
    here: &UnitScope<'_>,
    number: u16,
    arguments: &[Argument],
) -> Result<(), AllocError>
    ensures { OnOk result (Puts text.old text.new
        (flat_map (argument_text here.now.config here.now.unit number) arguments.now)) }
{
    'arguments: for argument in arguments {
        put_argument(alloc, text, here, number, argument)?;
    }
    Ok(())
}

// The target of an output.
fn put_argument(
    alloc: Global,
    text: &mut String,
    here: &UnitScope<'_>,
    number: u16,
    argument: &Argument,
) -> Result<(), AllocError>
    ensures { OnOk result (Puts text.old text.new
        (argument_text here.now.config here.now.unit number argument.now)) }
{
    match argument {
        Argument::Output { target, .. } => put_name(
            alloc,
            text,
            here,
            number,
            target.name.as_str(),
        ),
        Argument::Input { .. } => Ok(()),
    }
}

// The target of a store.
fn put_target(
    alloc: Global,
    text: &mut String,
    here: &UnitScope<'_>,
    number: u16,
    target: &Reference,
) -> Result<(), AllocError>
    ensures { OnOk result (Puts text.old text.new
        (target_text here.now.config here.now.unit number target.now)) }
{
    match target {
        Reference::Literal(_) => {
            if number == 38 {
                Ok(())
            } else {
                put_literal_line(text)
            }
        }
        Reference::Variable(name) => put_name(alloc, text, here, number, name.as_str()),
        Reference::Element(name, _) => put_name(alloc, text, here, number, name.as_str()),
        Reference::Member(name, word) => {
            if number == 38 {
                Ok(())
            } else {
                put_member(text, here, name.as_str(), word.as_str())
            }
        }
    }
}

// A name that is stored into.
fn put_name(
    alloc: Global,
    text: &mut String,
    here: &UnitScope<'_>,
    number: u16,
    name: &str,
) -> Result<(), AllocError>
    ensures { OnOk result (Puts text.old text.new
        (name_text here.now.config here.now.unit number name.now)) }
{
    if number == 38 {
        put_stored(alloc, text, here, name)
    } else {
        put_variable(text, here, name)
    }
}
