// Calls of instances (IEC 61131-3:2003, 2.5.2.2).

ghost use Rattle.std.specs.Prelude.{◌≡◌, IfOk, OnOk};
ghost use Rattle.load_slots.specs.Flattened.{slot_in};
ghost use Rattle.load_code.specs.Resolving.{assigned_at, copied_at, with_input, with_output, inputs_at, outputs_at, block_call, call_of, calling_code};

use crate::here::Here;
use crate::operands::{Known, name_operand, operand_for, resolve, slot_known};
use base_lists::Items;
use il_syntax::tree::{Argument, Condition, Named, Operand as Written};
use load_scope::entry::{BlockType, VariableType};
use load_slots::flat::{Assignment, Copied, Flat, Operand, Slot};
use std::alloc::{AllocError, Global};

// The slot of an operand that names a variable.
fn slot_in(operand: Operand) -> Slot
    ensures { result ≡ slot_in operand }
{
    match operand {
        Operand::At(slot) => slot,
        _ => Slot::Flag(0),
    }
}

// An input of a call, and what it is given.
fn assignment(
    here: &Here,
    block: BlockType,
    base: usize,
    word: &Named,
    from: &Written,
) -> Assignment
    ensures { result ≡ assigned_at here.now.scope.config here.now.scope.unit block base word.now
        from.now }
{
    let input = here.input(block, word.name.as_str());
    Assignment {
        to: slot_known(base, input),
        from: operand_for(input, resolve(here, &from.reference)),
    }
}

// An output of a call, and where it is copied to.
fn copied(here: &Here, block: BlockType, base: usize, word: &Named, to: &Named) -> Copied
    ensures { result ≡ copied_at here.now.scope.config here.now.scope.unit block base word.now
        to.now }
{
    let output = here.output(block, word.name.as_str());
    Copied {
        from: slot_known(base, output),
        to: slot_in(name_operand(here, to.name.as_str())),
    }
}

// Adds an argument, if it is an input.
fn add_input(
    here: &Here,
    block: BlockType,
    base: usize,
    inputs: &mut Items<Assignment>,
    argument: &Argument,
) -> Result<(), AllocError>
    ensures { OnOk result (inputs.new ≡ with_input here.now.scope.config here.now.scope.unit block
        base inputs.old argument.now) }
{
    match argument {
        Argument::Input { word, operand } => {
            inputs.push(assignment(here, block, base, word, operand))
        }
        Argument::Output { .. } => Ok(()),
    }
}

// Adds an argument, if it is an output.
fn add_output(
    here: &Here,
    block: BlockType,
    base: usize,
    outputs: &mut Items<Copied>,
    argument: &Argument,
) -> Result<(), AllocError>
    ensures { OnOk result (outputs.new
        ≡ with_output here.now.scope.config here.now.scope.unit block base outputs.old
        argument.now) }
{
    match argument {
        Argument::Output { word, target } => {
            outputs.push(copied(here, block, base, word, target))
        }
        Argument::Input { .. } => Ok(()),
    }
}

// The inputs of a call, in the written order.
fn inputs_at(
    alloc: Global,
    here: &Here,
    block: BlockType,
    base: usize,
    arguments: &[Argument],
) -> Result<Items<Assignment>, AllocError>
    ensures { IfOk result (λ is. is ≡ inputs_at here.now.scope.config here.now.scope.unit block
        base arguments.now) }
{
    let mut inputs = Items::new(alloc);
    for argument in arguments {
        add_input(here, block, base, &mut inputs, argument)?;
    }
    Ok(inputs)
}

// The outputs of a call, in the written order.
fn outputs_at(
    alloc: Global,
    here: &Here,
    block: BlockType,
    base: usize,
    arguments: &[Argument],
) -> Result<Items<Copied>, AllocError>
    ensures { IfOk result (λ os. os ≡ outputs_at here.now.scope.config here.now.scope.unit block
        base arguments.now) }
{
    let mut outputs = Items::new(alloc);
    for argument in arguments {
        add_output(here, block, base, &mut outputs, argument)?;
    }
    Ok(outputs)
}

// The call of a block, whose instance is at an offset.
fn block_call(
    alloc: Global,
    here: &Here,
    condition: Condition,
    base: usize,
    arguments: &[Argument],
    block: BlockType,
) -> Result<Flat, AllocError>
    ensures { IfOk result (λ f. f ≡ block_call here.now.scope.config here.now.scope.unit condition
        base arguments.now block) }
{
    let inputs = inputs_at(alloc, here, block, base, arguments)?;
    let outputs = outputs_at(alloc, here, block, base, arguments)?;
    Ok(match block {
        BlockType::Standard(block) => Flat::CallStandard {
            condition,
            block,
            base,
            inputs,
            outputs,
        },
        BlockType::Own(unit) => Flat::Call {
            condition,
            unit,
            base,
            inputs,
            outputs,
        },
    })
}

// The call of what is known.
fn call_of(
    alloc: Global,
    here: &Here,
    condition: Condition,
    arguments: &[Argument],
    known: Option<Known>,
) -> Result<Flat, AllocError>
    ensures { IfOk result (λ f. f ≡ call_of here.now.scope.config here.now.scope.unit condition
        arguments.now known) }
{
    let Some(known) = known else {
        return Ok(Flat::Not);
    };
    match known.declared {
        VariableType::Instance(Some(block)) => {
            block_call(alloc, here, condition, known.offset, arguments, block)
        }
        _ => Ok(Flat::Not),
    }
}

/// A call of an instance.
pub fn call(
    alloc: Global,
    here: &Here,
    condition: Condition,
    instance: &Named,
    arguments: &[Argument],
) -> Result<Flat, AllocError>
    ensures { IfOk result (λ f. f ≡ calling_code here.now.scope.config here.now.scope.unit condition
        instance.now.name arguments.now) }
{
    let known = here.known(instance.name.as_str());
    call_of(alloc, here, condition, arguments, known)
}
