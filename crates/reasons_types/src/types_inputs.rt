// The inputs of own functions, each with its type (IEC 61131-3:2003, 2.5.1).

ghost use Rattle.std.specs.Prelude.{◌≡◌, flat_map, option_copied, OnOk};
ghost use Rattle.base_texts.specs.Puts.{Puts};
ghost use Rattle.il_statics.specs.Names.{function_named};
ghost use Rattle.il_statics.specs.Types.{scalar_type};
ghost use Rattle.reasons_types.specs.TypeReasons.{input_line, declared_lines, inputs_lines, called_lines};

use crate::types_operands::put_is;
use il_syntax::tree::{Declaration, Elementary, Form, Instruction, Named, Unit};
use load_scope::Scoped;
use reasons_names::writing::put_three;
use std::alloc::AllocError;

// The type of a scalar.
fn scalar_type(form: &Form) -> Option<Elementary>
    ensures { result ≡ scalar_type form.now }
{
    match form {
        Form::Scalar(scalar) => Some(scalar.elementary),
        _ => None,
    }
}

// `B of F is BOOL`, of an input with this type.
fn put_input(
    text: &mut String,
    function: &str,
    found: Option<Elementary>,
    named: &Named,
) -> Result<(), AllocError>
    ensures { OnOk result (Puts text.old text.new (input_line function.now found named.now)) }
{
    match found {
        Some(found) => {
            put_three(text, named.name.as_str(), " of ", function)?;
            put_is(text, found)
        }
        None => Ok(()),
    }
}

// The inputs of a declaration.
fn put_declaration(
    text: &mut String,
    function: &str,
    declaration: &Declaration,
) -> Result<(), AllocError>
    ensures { OnOk result (Puts text.old text.new (declared_lines function.now declaration.now)) }
{
    let found = scalar_type(&declaration.declared.form);
    put_names(text, function, found, declaration.names.as_slice())
}

// Inputs with this type.
fn put_names(
    text: &mut String,
    function: &str,
    found: Option<Elementary>,
    names: &[Named],
) -> Result<(), AllocError>
    ensures { OnOk result (Puts text.old text.new
        (flat_map (input_line function.now found) names.now)) }
{
    'names: for named in names {
        put_input(text, function, found, named)?;
    }
    Ok(())
}

// The inputs of declarations.
fn put_declarations(
    text: &mut String,
    function: &str,
    declarations: &[Declaration],
) -> Result<(), AllocError>
    ensures { OnOk result (Puts text.old text.new
        (flat_map (declared_lines function.now) declarations.now)) }
{
    'declarations: for declaration in declarations {
        put_declaration(text, function, declaration)?;
    }
    Ok(())
}

// The own function of a name.
fn own_function<'n>(names: &'n Scoped, name: &str) -> Option<&'n Unit>
    ensures { option_copied result ≡ function_named names.now name.now }
{
    let number = names.function(name)?;
    let unit = names.config().units.as_slice().get(number)?;
    Some(unit)
}

// The inputs of the own function of a name.
fn put_inputs(text: &mut String, names: &Scoped, name: &str) -> Result<(), AllocError>
    ensures { OnOk result (Puts text.old text.new
        (inputs_lines name.now (function_named names.now name.now))) }
{
    match own_function(names, name) {
        Some(unit) => put_declarations(text, name, unit.inputs.as_slice()),
        None => Ok(()),
    }
}

/// The inputs of the function that an instruction calls, where it is an own one.
pub fn put_called(
    text: &mut String,
    names: &Scoped,
    instruction: &Instruction,
) -> Result<(), AllocError>
    ensures { OnOk result (Puts text.old text.new (called_lines names.now instruction.now)) }
{
    match instruction {
        Instruction::Invoke { function, .. } => put_inputs(text, names, function.name.as_str()),
        _ => Ok(()),
    }
}
