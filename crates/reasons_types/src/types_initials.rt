// Initial values, and the names that they are for (IEC 61131-3:2003, 2.4.3.2).

ghost use Rattle.std.specs.Prelude.{Some, flat_map, OnOk};
ghost use Rattle.base_texts.specs.Puts.{Puts};
ghost use Rattle.reasons_types.specs.InitialReasons.{declared_line, initial_lines, declaration_lines, declarations_lines, unit_initials, initials_lines};

use crate::types_operands::{put_literal, type_word};
use il_syntax::tree::{Config, Declaration, Form, Initial, Named, Unit};
use reasons_names::writing::{put_four, put_two};
use std::alloc::AllocError;

// `V is BOOL`, `V is an array`, `V is an instance`, of a declared name.
fn put_declared(text: &mut String, form: &Form, named: &Named) -> Result<(), AllocError>
    ensures { OnOk result (Puts text.old text.new (declared_line form.now named.now)) }
{
    let name = named.name.as_str();
    match form {
        Form::Scalar(scalar) => put_four(text, name, " is ", type_word(scalar.elementary), "\n"),
        Form::Array { .. } => put_two(text, name, " is an array\n"),
        Form::Block(_) => put_two(text, name, " is an instance\n"),
    }
}

// Of declared names.
fn put_names(text: &mut String, form: &Form, names: &[Named]) -> Result<(), AllocError>
    ensures { OnOk result (Puts text.old text.new (flat_map (declared_line form.now) names.now)) }
{
    'names: for named in names {
        put_declared(text, form, named)?;
    }
    Ok(())
}

// The names of a declaration, and its initial value, where that is the one.
fn put_initial(
    text: &mut String,
    offset: u32,
    declaration: &Declaration,
    initial: Option<Initial>,
) -> Result<(), AllocError>
    ensures { OnOk result (Puts text.old text.new (initial_lines offset declaration.now initial)) }
{
    match initial {
        Some(initial) => put_value(text, offset, declaration, initial),
        None => Ok(()),
    }
}

// The line of an initial value, where that is the one.
fn put_value(
    text: &mut String,
    offset: u32,
    declaration: &Declaration,
    initial: Initial,
) -> Result<(), AllocError>
    ensures { OnOk result (Puts text.old text.new
        (initial_lines offset declaration.now (Some initial))) }
{
    if initial.place.offset == offset {
        put_names(
            text,
            &declaration.declared.form,
            declaration.names.as_slice(),
        )?;
        put_literal(text, initial.literal)
    } else {
        Ok(())
    }
}

// Of declarations.
fn put_declarations(
    text: &mut String,
    offset: u32,
    declarations: &[Declaration],
) -> Result<(), AllocError>
    ensures { OnOk result (Puts text.old text.new (declarations_lines offset declarations.now)) }
{
    'declarations: for declaration in declarations {
        put_initial(text, offset, declaration, declaration.initial)?;
    }
    Ok(())
}

// Of a unit.
fn put_unit(text: &mut String, offset: u32, unit: &Unit) -> Result<(), AllocError>
    ensures { OnOk result (Puts text.old text.new (unit_initials offset unit.now)) }
{
    put_declarations(text, offset, unit.inputs.as_slice())?;
    put_declarations(text, offset, unit.outputs.as_slice())?;
    put_declarations(text, offset, unit.variables.as_slice())?;
    put_declarations(text, offset, unit.externals.as_slice())
}

// Of units.
fn put_units(text: &mut String, offset: u32, units: &[Unit]) -> Result<(), AllocError>
    ensures { OnOk result (Puts text.old text.new (flat_map (unit_initials offset) units.now)) }
{
    'units: for unit in units {
        put_unit(text, offset, unit)?;
    }
    Ok(())
}

/// The names of the declaration whose initial value follows so many bytes, each with its type, and that value.
pub fn put_initials(text: &mut String, config: &Config, offset: u32) -> Result<(), AllocError>
    ensures { OnOk result (Puts text.old text.new (initials_lines config.now offset)) }
{
    put_units(text, offset, config.units.as_slice())?;
    put_declarations(text, offset, config.globals.as_slice())
}
