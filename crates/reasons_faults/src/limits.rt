// Subranges and bounds that are empty, beyond their base or too long (22; IEC 61131-3:2003, 2.3.3.1), and what is too many (12).

ghost use Rattle.std.specs.Prelude.{◌≡◌, ◌++◌, ◌&&◌, true, flat_map, OnOk};
ghost use Rattle.base_texts.specs.Puts.{Puts};
ghost use Rattle.il_syntax.specs.declared.tree.Elementary.TheVariants.{Int};
ghost use Rattle.il_statics.specs.Declarations.{has_value};
ghost use Rattle.reasons_faults.specs.LimitReasons.{above_line, base_by, base_line, subrange_by, subrange_lines, outside_line, long_line, long_lines, bounds_lines, form_lines, declared_lines, result_lines, unit_lines, limit_lines, slots_line};

use il_statics::elementary::{has_value, limits};
use il_syntax::tree::{Config, Declaration, Elementary, Form, Scalar, Subrange, Unit, UnitKind};
use reasons_types::range_words::{put, put_limits};
use reasons_types::types_operands::type_word;
use std::alloc::AllocError;

// `5 is above 4`
#[tactic(auto, unfolding(crate::specs::LimitReasons::above_line))]
fn put_above(text: &mut String, of: Subrange) -> Result<(), AllocError>
    ensures { OnOk result (Puts text.old text.new (above_line of)) }
{
    write!(text, "{} is above {}\n", of.lower, of.upper)
}

// `SINT is -128..127`
fn put_base(text: &mut String, elementary: Elementary) -> Result<(), AllocError>
    ensures { OnOk result (Puts text.old text.new (base_line elementary)) }
{
    put_base_by(text, elementary, limits(elementary))
}

fn put_base_by(
    text: &mut String,
    elementary: Elementary,
    limits: Option<Subrange>,
) -> Result<(), AllocError>
    ensures { OnOk result (Puts text.old text.new (base_by elementary limits)) }
{
    let Some(limits) = limits else {
        return Ok(());
    };
    text.push_str(type_word(elementary))?;
    text.push_str(" is ")?;
    put_limits(text, limits)?;
    text.push_str("\n")
}

// What is wrong with a subrange.
fn put_subrange_by(
    text: &mut String,
    elementary: Elementary,
    of: Subrange,
) -> Result<(), AllocError>
    ensures { OnOk result (Puts text.old text.new (subrange_by elementary of)) }
{
    if of.upper < of.lower {
        put_above(text, of)
    } else if has_value(elementary, of.lower) && has_value(elementary, of.upper) {
        Ok(())
    } else {
        put_base(text, elementary)
    }
}

// What is wrong with the subrange of a scalar type.
fn put_subrange(text: &mut String, scalar: Scalar) -> Result<(), AllocError>
    ensures { OnOk result (Puts text.old text.new (subrange_lines scalar)) }
{
    match scalar.subrange {
        Some(of) => put_subrange_by(text, scalar.elementary, of),
        None => Ok(()),
    }
}

// What is wrong with the bounds of an array.
fn put_bounds(text: &mut String, of: Subrange) -> Result<(), AllocError>
    ensures { OnOk result (Puts text.old text.new (bounds_lines of)) }
{
    if of.upper < of.lower {
        put_above(text, of)
    } else if has_value(Elementary::Int, of.lower) && has_value(Elementary::Int, of.upper) {
        put_long(text, of)
    } else {
        put_outside(text)
    }
}

#[tactic(auto, unfolding(crate::specs::LimitReasons::outside_line))]
fn put_outside(text: &mut String) -> Result<(), AllocError>
    ensures { OnOk result (Puts text.old text.new outside_line) }
{
    text.push_str("the bounds of an array are -32768..32767\n")
}

// `an array has at most 256 elements`, where it has more.
fn put_long(text: &mut String, of: Subrange) -> Result<(), AllocError>
    ensures { OnOk result (Puts text.old text.new (long_lines of)) }
{
    if i128::from(of.upper) - i128::from(of.lower) < 256 {
        Ok(())
    } else {
        put_long_line(text)
    }
}

#[tactic(auto, unfolding(crate::specs::LimitReasons::long_line))]
fn put_long_line(text: &mut String) -> Result<(), AllocError>
    ensures { OnOk result (Puts text.old text.new long_line) }
{
    text.push_str("an array has at most 256 elements\n")
}

// What is wrong with a type.
fn put_form(text: &mut String, form: &Form) -> Result<(), AllocError>
    ensures { OnOk result (Puts text.old text.new (form_lines form.now)) }
{
    match form {
        Form::Scalar(scalar) => put_subrange(text, *scalar),
        Form::Array { bounds, element } => {
            put_bounds(text, *bounds)?;
            put_subrange(text, *element)
        }
        Form::Block(_) => Ok(()),
    }
}

// What is wrong with the type of a declaration at this place.
fn put_declared(text: &mut String, offset: u32, declaration: &Declaration) -> Result<(), AllocError>
    ensures { OnOk result (Puts text.old text.new (declared_lines offset declaration.now)) }
{
    if declaration.declared.place.offset == offset {
        put_form(text, &declaration.declared.form)
    } else {
        Ok(())
    }
}

fn put_declarations(
    text: &mut String,
    offset: u32,
    declarations: &[Declaration],
) -> Result<(), AllocError>
    ensures { OnOk result (Puts text.old text.new
        (flat_map (declared_lines offset) declarations.now)) }
{
    'declarations: for declaration in declarations {
        put_declared(text, offset, declaration)?;
    }
    Ok(())
}

// The type of a function's result.
fn put_result(text: &mut String, offset: u32, kind: UnitKind) -> Result<(), AllocError>
    ensures { OnOk result (Puts text.old text.new (result_lines offset kind)) }
{
    match kind {
        UnitKind::Function(scalar, place) if place.offset == offset => put_subrange(text, scalar),
        _ => Ok(()),
    }
}

fn put_unit(text: &mut String, offset: u32, unit: &Unit) -> Result<(), AllocError>
    ensures { OnOk result (Puts text.old text.new (unit_lines offset unit.now)) }
{
    put_result(text, offset, unit.kind)?;
    put_declarations(text, offset, unit.inputs.as_slice())?;
    put_declarations(text, offset, unit.outputs.as_slice())?;
    put_declarations(text, offset, unit.variables.as_slice())?;
    put_declarations(text, offset, unit.externals.as_slice())
}

fn put_units(text: &mut String, offset: u32, units: &[Unit]) -> Result<(), AllocError>
    ensures { OnOk result (Puts text.old text.new (flat_map (unit_lines offset) units.now)) }
{
    'units: for unit in units {
        put_unit(text, offset, unit)?;
    }
    Ok(())
}

/// What is wrong with the limits of the type at a place (22).
pub(crate) fn put_limits_at(
    text: &mut String,
    config: &Config,
    offset: u32,
) -> Result<(), AllocError>
    ensures { OnOk result (Puts text.old text.new (limit_lines config.now offset)) }
{
    put_units(text, offset, config.units.as_slice())?;
    put_declarations(text, offset, config.globals.as_slice())
}

/// Of a task or of globals with too many slots (12).
#[tactic(auto, unfolding(crate::specs::LimitReasons::slots_line))]
pub(crate) fn put_slots(text: &mut String) -> Result<(), AllocError>
    ensures { OnOk result (Puts text.old text.new slots_line) }
{
    put(
        text,
        "a task has at most 4096 slots, and so have the globals\n",
    )
}
