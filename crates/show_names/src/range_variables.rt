// The variables that an instruction names, with their ranges.

ghost use Rattle.std.specs.Prelude.{◌≡◌, ◌++◌, map, IfOk, OnOk};
ghost use Rattle.show_names.specs.RangeLines.{named_variable, index_variables, reference_variables, first_variables, argument_variables, operands_variables, arguments_variables, instruction_variables, variable_shown};

use base_lists::Items;
use il_syntax::tree::{Argument, Index, Instruction, Operand, Reference};
use ranges_interval::Interval;
use ranges_pass::PlaceFacts;
use std::alloc::{AllocError, Global};

/// A variable that has a range.
#[derive(Clone, Copy)]
pub struct RangedVariable<'c> {
    pub name: &'c str,
    pub range: Interval,
}

/// The variables that an instruction names and that have a range, in the written order.
pub fn instruction_variables<'c>(
    alloc: Global,
    known: &PlaceFacts,
    instruction: &'c Instruction,
) -> Result<Items<RangedVariable<'c>>, AllocError>
    ensures { IfOk result (λ variables. map variable_shown variables
        ≡ instruction_variables known.now instruction.now) }
{
    let mut variables = Items::new(alloc);
    add_instruction(&mut variables, known, instruction)?;
    Ok(variables)
}

fn add_instruction<'c>(
    variables: &mut Items<RangedVariable<'c>>,
    known: &PlaceFacts,
    instruction: &'c Instruction,
) -> Result<(), AllocError>
    ensures { OnOk result (map variable_shown variables.new ≡ map variable_shown variables.old
        ++ instruction_variables known.now instruction.now) }
{
    match instruction {
        Instruction::Load { operand, .. } => add_reference(variables, known, &operand.reference),
        Instruction::Store { target, .. } => add_reference(variables, known, &target.reference),
        Instruction::Operate { operand, .. } => add_reference(variables, known, &operand.reference),
        Instruction::Defer { first, .. } => add_first(variables, known, first),
        Instruction::Call { arguments, .. } => {
            add_arguments(variables, known, arguments.as_slice())
        }
        Instruction::Invoke { operands, .. } => add_operands(variables, known, operands.as_slice()),
        _ => Ok(()),
    }
}

// The variable of a name, where it has a range.
fn add_variable<'c>(
    variables: &mut Items<RangedVariable<'c>>,
    known: &PlaceFacts,
    name: &'c str,
) -> Result<(), AllocError>
    ensures { OnOk result (map variable_shown variables.new ≡ map variable_shown variables.old
        ++ named_variable known.now name.now) }
{
    match known.range(name) {
        Some(range) => variables.push(RangedVariable { name, range }),
        None => Ok(()),
    }
}

// The variable of an index.
fn add_index<'c>(
    variables: &mut Items<RangedVariable<'c>>,
    known: &PlaceFacts,
    index: &'c Index,
) -> Result<(), AllocError>
    ensures { OnOk result (map variable_shown variables.new ≡ map variable_shown variables.old
        ++ index_variables known.now index.now) }
{
    match index {
        Index::Number(_) => Ok(()),
        Index::Variable(name) => add_variable(variables, known, name.as_str()),
    }
}

// The variable of an operand, of an element that of its index.
fn add_reference<'c>(
    variables: &mut Items<RangedVariable<'c>>,
    known: &PlaceFacts,
    reference: &'c Reference,
) -> Result<(), AllocError>
    ensures { OnOk result (map variable_shown variables.new ≡ map variable_shown variables.old
        ++ reference_variables known.now reference.now) }
{
    match reference {
        Reference::Literal(_) => Ok(()),
        Reference::Variable(name) => add_variable(variables, known, name.as_str()),
        Reference::Element(_, index) => add_index(variables, known, index),
        Reference::Member(_, _) => Ok(()),
    }
}

// The variable of an operand that may not be there.
fn add_first<'c>(
    variables: &mut Items<RangedVariable<'c>>,
    known: &PlaceFacts,
    first: &'c Option<Operand>,
) -> Result<(), AllocError>
    ensures { OnOk result (map variable_shown variables.new ≡ map variable_shown variables.old
        ++ first_variables known.now first.now) }
{
    match first {
        Some(operand) => add_reference(variables, known, &operand.reference),
        None => Ok(()),
    }
}

// Of an argument: its operand's, or the target of an output.
fn add_argument<'c>(
    variables: &mut Items<RangedVariable<'c>>,
    known: &PlaceFacts,
    argument: &'c Argument,
) -> Result<(), AllocError>
    ensures { OnOk result (map variable_shown variables.new ≡ map variable_shown variables.old
        ++ argument_variables known.now argument.now) }
{
    match argument {
        Argument::Input { operand, .. } => add_reference(variables, known, &operand.reference),
        Argument::Output { target, .. } => add_variable(variables, known, target.name.as_str()),
    }
}

// Of operands, in the written order.
fn add_operands<'c>(
    variables: &mut Items<RangedVariable<'c>>,
    known: &PlaceFacts,
    operands: &'c [Operand],
) -> Result<(), AllocError>
    ensures { OnOk result (map variable_shown variables.new ≡ map variable_shown variables.old
        ++ operands_variables known.now operands.now) }
{
    'operands: for operand in operands {
        add_reference(variables, known, &operand.reference)?;
    }
    Ok(())
}

// Of arguments, in the written order.
fn add_arguments<'c>(
    variables: &mut Items<RangedVariable<'c>>,
    known: &PlaceFacts,
    arguments: &'c [Argument],
) -> Result<(), AllocError>
    ensures { OnOk result (map variable_shown variables.new ≡ map variable_shown variables.old
        ++ arguments_variables known.now arguments.now) }
{
    'arguments: for argument in arguments {
        add_argument(variables, known, argument)?;
    }
    Ok(())
}
