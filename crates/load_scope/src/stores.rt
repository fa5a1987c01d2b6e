// The names that bodies store into (own rule).

ghost use Rattle.std.specs.Prelude.{◌∷◌, [], flat_map, IfOk, OnOk};
ghost use Rattle.il_statics.specs.Types.{named_variable, argument_targets, stored_names};
ghost use Rattle.load_scope.specs.StoredNames.{AddsNames, HasStored};

use base_maps::Table;
use il_syntax::tree::{Argument, Instruction, Reference, Step};
use std::alloc::{AllocError, Global};

/// The names that instructions store into.
pub fn stored_by(alloc: Global, steps: &[Step]) -> Result<Table<bool>, AllocError>
    ensures { IfOk result (HasStored steps.now) }
{
    let mut stored = Table::new(alloc);
    for step in steps {
        add_stored(alloc, &mut stored, &step.instruction)?;
    }
    Ok(stored)
}

// Adds those that an instruction stores into.
#[tactic(auto, using(crate::proofs::Stored::none_more))]
fn add_stored(
    alloc: Global,
    stored: &mut Table<bool>,
    instruction: &Instruction,
) -> Result<(), AllocError>
    ensures { OnOk result (AddsNames stored.old stored.new (stored_names instruction.now)) }
{
    match instruction {
        Instruction::Store { target, .. } => add_target(alloc, stored, &target.reference),
        Instruction::Call { arguments, .. } => add_outputs(alloc, stored, arguments.as_slice()),
        _ => Ok(()),
    }
}

// Adds the variable of the target of a store, or of whose element it is.
#[tactic(auto, using(crate::proofs::Stored::none_more))]
fn add_target(alloc: Global, stored: &mut Table<bool>, target: &Reference) -> Result<(), AllocError>
    ensures { OnOk result (AddsNames stored.old stored.new (named_variable target.now)) }
{
    match target {
        Reference::Variable(variable) => add_name(alloc, stored, variable.as_str()),
        Reference::Element(variable, _) => add_name(alloc, stored, variable.as_str()),
        _ => Ok(()),
    }
}

// Adds those that arguments write.
fn add_outputs(
    alloc: Global,
    stored: &mut Table<bool>,
    arguments: &[Argument],
) -> Result<(), AllocError>
    ensures { OnOk result
        (AddsNames stored.old stored.new (flat_map argument_targets arguments.now)) }
{
    for argument in arguments {
        add_output(alloc, stored, argument)?;
    }
    Ok(())
}

// Adds the variable that an argument writes.
#[tactic(auto, using(crate::proofs::Stored::none_more))]
fn add_output(
    alloc: Global,
    stored: &mut Table<bool>,
    argument: &Argument,
) -> Result<(), AllocError>
    ensures { OnOk result (AddsNames stored.old stored.new (argument_targets argument.now)) }
{
    match argument {
        Argument::Output { target, .. } => add_name(alloc, stored, target.name.as_str()),
        Argument::Input { .. } => Ok(()),
    }
}

// Adds a name.
fn add_name(alloc: Global, stored: &mut Table<bool>, name: &str) -> Result<(), AllocError>
    ensures { OnOk result (AddsNames stored.old stored.new (name.now ∷ [])) }
{
    stored.put_new(alloc, name, true)?;
    Ok(())
}
