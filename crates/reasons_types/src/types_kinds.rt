// Names that are no variable of the kind that their place asks for (IEC 61131-3:2003, 2.4.3, 3.2.3).

ghost use Rattle.std.specs.Prelude.{◌≡◌, OnOk};
ghost use Rattle.base_texts.specs.Puts.{Puts};
ghost use Rattle.il_statics.specs.Names.{meaning};
ghost use Rattle.il_statics.specs.Declarations.{scalar_numbers, array_numbers, called_numbers};
ghost use Rattle.load_declarations.specs.Mentions.{scalar_of, array_of, called_of};
ghost use Rattle.reasons_types.specs.KindReasons.{is_other_kind, array_line, no_array_line, no_instance_line, index_kind, reference_kind, operand_kinds, argument_kind, argument_kinds, kind_lines};

use il_syntax::tree::{Argument, Index, Instruction, Operand, Reference};
use load_scope::UnitScope;
use load_scope::entry::{Binding, VariableType};
use reasons_names::writing::put_two;
use std::alloc::AllocError;

// Whether a variable of this type is an array.
fn is_array(declared: Option<VariableType>) -> bool
    ensures { result ≡ is_other_kind (scalar_of declared) }
{
    match declared {
        Some(VariableType::Array { .. }) => true,
        _ => false,
    }
}

// Whether what a name means is something else than an array.
fn is_no_array(binding: Option<Binding>) -> bool
    ensures { result ≡ is_other_kind (array_of binding) }
{
    match binding {
        Some(Binding::Variable(variable)) => {
            !matches!(variable.declared, VariableType::Array { .. })
        }
        Some(_) => true,
        None => false,
    }
}

// Whether what a name means is something else than an instance.
fn is_no_instance(binding: Option<Binding>) -> bool
    ensures { result ≡ is_other_kind (called_of binding) }
{
    match binding {
        Some(Binding::Variable(variable)) => {
            !matches!(variable.declared, VariableType::Instance(_))
        }
        Some(_) => true,
        None => false,
    }
}

// Whether a name means an array.
fn names_array(scope: &UnitScope<'_>, name: &str) -> bool
    ensures { result ≡ is_other_kind
        (scalar_numbers (meaning scope.now.config scope.now.unit name.now)) }
{
    is_array(scope.declared_type(name))
}

fn names_no_array(scope: &UnitScope<'_>, name: &str) -> bool
    ensures { result ≡ is_other_kind
        (array_numbers (meaning scope.now.config scope.now.unit name.now)) }
{
    is_no_array(scope.meaning(name))
}

fn names_no_instance(scope: &UnitScope<'_>, name: &str) -> bool
    ensures { result ≡ is_other_kind
        (called_numbers (meaning scope.now.config scope.now.unit name.now)) }
{
    is_no_instance(scope.meaning(name))
}

// `V is an array`, where a scalar variable is wanted.
fn put_array(text: &mut String, scope: &UnitScope<'_>, name: &str) -> Result<(), AllocError>
    ensures { OnOk result (Puts text.old text.new
        (array_line scope.now.config scope.now.unit name.now)) }
{
    if names_array(scope, name) {
        put_two(text, name, " is an array\n")
    } else {
        Ok(())
    }
}

// `V is no array`, before an index.
fn put_no_array(text: &mut String, scope: &UnitScope<'_>, name: &str) -> Result<(), AllocError>
    ensures { OnOk result (Puts text.old text.new
        (no_array_line scope.now.config scope.now.unit name.now)) }
{
    if names_no_array(scope, name) {
        put_two(text, name, " is no array\n")
    } else {
        Ok(())
    }
}

// `V is no instance of a function block`, after CAL.
fn put_no_instance(text: &mut String, scope: &UnitScope<'_>, name: &str) -> Result<(), AllocError>
    ensures { OnOk result (Puts text.old text.new
        (no_instance_line scope.now.config scope.now.unit name.now)) }
{
    if names_no_instance(scope, name) {
        put_two(text, name, " is no instance of a function block\n")
    } else {
        Ok(())
    }
}

// Of an index.
fn put_index(text: &mut String, scope: &UnitScope<'_>, index: &Index) -> Result<(), AllocError>
    ensures { OnOk result (Puts text.old text.new
        (index_kind scope.now.config scope.now.unit index.now)) }
{
    match index {
        Index::Number(_) => Ok(()),
        Index::Variable(name) => put_array(text, scope, name.as_str()),
    }
}

// Of an operand.
fn put_reference(
    text: &mut String,
    scope: &UnitScope<'_>,
    reference: &Reference,
) -> Result<(), AllocError>
    ensures { OnOk result (Puts text.old text.new
        (reference_kind scope.now.config scope.now.unit reference.now)) }
{
    match reference {
        Reference::Literal(_) => Ok(()),
        Reference::Variable(name) => put_array(text, scope, name.as_str()),
        Reference::Element(name, index) => {
            put_no_array(text, scope, name.as_str())?;
            put_index(text, scope, index)
        }
        Reference::Member(_, _) => Ok(()),
    }
}

// Of operands, in the written order.
fn put_operands(
    text: &mut String,
    scope: &UnitScope<'_>,
    operands: &[Operand],
) -> Result<(), AllocError>
    ensures { OnOk result (Puts text.old text.new
        (operand_kinds scope.now.config scope.now.unit operands.now)) }
{
    'operands: for operand in operands {
        put_reference(text, scope, &operand.reference)?;
    }
    Ok(())
}

// Of an argument of a CAL.
fn put_argument(
    text: &mut String,
    scope: &UnitScope<'_>,
    argument: &Argument,
) -> Result<(), AllocError>
    ensures { OnOk result (Puts text.old text.new
        (argument_kind scope.now.config scope.now.unit argument.now)) }
{
    match argument {
        Argument::Input { operand, .. } => put_reference(text, scope, &operand.reference),
        Argument::Output { target, .. } => put_array(text, scope, target.name.as_str()),
    }
}

// Of arguments.
fn put_arguments(
    text: &mut String,
    scope: &UnitScope<'_>,
    arguments: &[Argument],
) -> Result<(), AllocError>
    ensures { OnOk result (Puts text.old text.new
        (argument_kinds scope.now.config scope.now.unit arguments.now)) }
{
    'arguments: for argument in arguments {
        put_argument(text, scope, argument)?;
    }
    Ok(())
}

/// Of the names of an instruction, those of another kind than their place asks for.
pub fn put_kinds(
    text: &mut String,
    scope: &UnitScope<'_>,
    instruction: &Instruction,
) -> Result<(), AllocError>
    ensures { OnOk result (Puts text.old text.new
        (kind_lines scope.now.config scope.now.unit instruction.now)) }
{
    match instruction {
        Instruction::Load { operand, .. } => put_reference(text, scope, &operand.reference),
        Instruction::Store { target, .. } => put_reference(text, scope, &target.reference),
        Instruction::Operate { operand, .. } => put_reference(text, scope, &operand.reference),
        Instruction::Defer { first, .. } => match first {
            Some(operand) => put_reference(text, scope, &operand.reference),
            None => Ok(()),
        },
        Instruction::Call {
            instance,
            arguments,
            ..
        } => {
            put_no_instance(text, scope, instance.name.as_str())?;
            put_arguments(text, scope, arguments.as_slice())
        }
        Instruction::Invoke { operands, .. } => put_operands(text, scope, operands.as_slice()),
        _ => Ok(()),
    }
}
