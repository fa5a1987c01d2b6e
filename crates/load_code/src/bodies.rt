// The flat code of bodies.

ghost use Rattle.std.specs.Prelude.{◌≡◌, ◌++◌, ◌∷◌, [], IfOk, option_map};
ghost use Rattle.il_statics.specs.Types.{label_place};
ghost use Rattle.il_semantics.specs.Meaning.{natural, denotation, Constant};
ghost use Rattle.load_slots.specs.Flattened.{typed, operand_of, place_or_zero, flat, flat_code};
ghost use Rattle.load_slots.specs.Program.{program_names};

use crate::calls::call;
use crate::here::Here;
use crate::invokes::invoke;
use crate::operands::{beside, loaded};
use base_lists::Items;
use il_syntax::tree::{Condition, Instruction, Operand as Written};
use load_slots::flat::{Flat, Operand};
use std::alloc::{AllocError, Global};

// The place of a label, or 0 where there is none.
fn place_of(here: &Here, name: &str) -> usize
    ensures { result ≡ place_or_zero (label_place here.now.scope.unit.body name.now) }
{
    match here.scope.label(name) {
        Some(place) => place,
        None => 0,
    }
}

// The operand of a short form.
fn short_form(here: &Here, first: &Option<Written>) -> Option<Operand>
    ensures { result ≡ option_map (λ o.
        operand_of (program_names here.now.scope.config here.now.scope.unit.name.name)
        (λ l. typed (natural (Constant l)) l)
        (denotation here.now.scope.config here.now.scope.unit o.reference)) first.now }
{
    match first {
        Some(operand) => Some(loaded(here, &operand.reference)),
        None => None,
    }
}

// An instruction of the tree in flat code.
fn flat(alloc: Global, here: &Here, instruction: &Instruction) -> Result<Flat, AllocError>
    ensures { IfOk result (λ f. f ≡ flat
        (program_names here.now.scope.config here.now.scope.unit.name.name) here.now.scope.config
        here.now.scope.unit instruction.now) }
{
    match instruction {
        Instruction::Load { negated, operand } => Ok(Flat::Load {
            negated: *negated,
            operand: loaded(here, &operand.reference),
        }),
        Instruction::Store { store, target } => Ok(Flat::Store {
            store: *store,
            target: beside(here, &target.reference),
        }),
        Instruction::Not => Ok(Flat::Not),
        Instruction::Operate { operator, operand } => Ok(Flat::Operate {
            operator: *operator,
            operand: beside(here, &operand.reference),
        }),
        Instruction::Defer { operator, first } => Ok(Flat::Defer {
            operator: *operator,
            first: short_form(here, first),
        }),
        Instruction::Evaluate => Ok(Flat::Evaluate),
        Instruction::Jump { condition, label } => Ok(Flat::Jump {
            condition: *condition,
            to: place_of(here, label.name.as_str()),
        }),
        Instruction::Return { condition } => Ok(Flat::Return {
            condition: *condition,
        }),
        Instruction::Call {
            condition,
            instance,
            arguments,
        } => call(alloc, here, *condition, instance, arguments.as_slice()),
        Instruction::Invoke { function, operands } => {
            invoke(alloc, here, function, operands.as_slice())
        }
    }
}

// The flat code of the written instructions.
fn steps_code(alloc: Global, here: &Here) -> Result<Items<Flat>, AllocError>
    ensures { IfOk result (λ code. code ++ Flat.Return Condition.Always ∷ []
        ≡ flat_code (program_names here.now.scope.config here.now.scope.unit.name.name)
        here.now.scope.config here.now.scope.unit here.now.scope.unit.body.steps) }
{
    let mut code = Items::new(alloc);
    for step in here.scope.tree().body.steps.as_slice() {
        code.push(flat(alloc, here, &step.instruction)?)?;
    }
    Ok(code)
}

/// The flat code of a unit's body: one instruction for each written one, and the implicit RET.
pub fn flat_code(alloc: Global, here: &Here) -> Result<Items<Flat>, AllocError>
    ensures { IfOk result (λ code. code
        ≡ flat_code (program_names here.now.scope.config here.now.scope.unit.name.name)
        here.now.scope.config here.now.scope.unit here.now.scope.unit.body.steps) }
{
    let mut code = steps_code(alloc, here)?;
    code.push(Flat::Return {
        condition: Condition::Always,
    })?;
    Ok(code)
}
