// Written types that are not what their places ask for, and what is wanted there (IEC 61131-3:2003, 2.3.3.1, 2.4.3).

ghost use Rattle.std.specs.Prelude.{◌≡◌, ◌++◌, flat_map, codes, decimal, OnOk};
ghost use Rattle.base_texts.specs.Puts.{Puts};
ghost use Rattle.il_syntax.specs.declared.tree.Form.TheVariants.{Scalar as OfScalar};
ghost use Rattle.reasons_types.specs.WrittenReasons.{written_scalar, form_text, form_words, form_line, subrange_line, form_subrange_line, array_line, instance_line, wanted_line, written_lines, global_line, global_lines, globals_lines, external_lines, result_lines, wanted_variables, unit_written, misplaced_lines};

use crate::range_words::{put, put_limits, put_within};
use crate::types_operands::type_word;
use il_statics::elementary::is_whole;
use il_syntax::tree::{Config, Declaration, Form, Named, Scalar, Unit, UnitKind};
use reasons_names::writing::put_two;
use std::alloc::AllocError;

/// What a list of declarations takes.
#[derive(Clone, Copy)]
pub enum Wanted {
    Scalars,
    ScalarsAndArrays,
    AllForms,
}

// `INT`, `INT (0..5)`
fn put_scalar(text: &mut String, scalar: Scalar) -> Result<(), AllocError>
    ensures { OnOk result (Puts text.old text.new (written_scalar scalar)) }
{
    text.push_str(type_word(scalar.elementary))?;
    put_within(text, scalar.subrange)
}

// `an instance of TON`
fn put_instance(text: &mut String, block: &str) -> Result<(), AllocError>
    ensures { OnOk result (Puts text.old text.new (codes "an instance of " ++ block.now)) }
{
    put_two(text, "an instance of ", block)
}

// `INT (0..5)`, `ARRAY [1..4] OF INT`, `an instance of TON`
fn put_form(text: &mut String, form: &Form) -> Result<(), AllocError>
    ensures { OnOk result (Puts text.old text.new (form_text form.now)) }
{
    match form {
        Form::Scalar(scalar) => put_scalar(text, *scalar),
        Form::Array { bounds, element } => {
            text.push_str("ARRAY [")?;
            put_limits(text, *bounds)?;
            text.push_str("] OF ")?;
            put_scalar(text, *element)
        }
        Form::Block(block) => put_instance(text, block.as_str()),
    }
}

// `V is INT (0..5)`, of a declared name.
fn put_form_words(text: &mut String, form: &Form, named: &Named) -> Result<(), AllocError>
    ensures { OnOk result (Puts text.old text.new (form_words form.now named.now)) }
{
    put_two(text, named.name.as_str(), " is ")?;
    put_form(text, form)
}

// The type of a declared name, as a line.
fn put_named(text: &mut String, form: &Form, named: &Named) -> Result<(), AllocError>
    ensures { OnOk result (Puts text.old text.new (form_line form.now named.now)) }
{
    put_form_words(text, form, named)?;
    text.push_str("\n")
}

// Of declared names.
fn put_names(text: &mut String, form: &Form, names: &[Named]) -> Result<(), AllocError>
    ensures { OnOk result (Puts text.old text.new (flat_map (form_line form.now) names.now)) }
{
    'names: for named in names {
        put_named(text, form, named)?;
    }
    Ok(())
}

// `BOOL has no subranges`, where one is written.
fn put_subrange(text: &mut String, scalar: Scalar) -> Result<(), AllocError>
    ensures { OnOk result (Puts text.old text.new (subrange_line scalar)) }
{
    if scalar.subrange.is_some() && !is_whole(scalar.elementary) {
        put_two(text, type_word(scalar.elementary), " has no subranges\n")
    } else {
        Ok(())
    }
}

// That the elements of an array have no subranges, where one is written.
fn put_form_subrange(text: &mut String, form: &Form) -> Result<(), AllocError>
    ensures { OnOk result (Puts text.old text.new (form_subrange_line form.now)) }
{
    match form {
        Form::Scalar(scalar) => put_subrange(text, *scalar),
        Form::Array { element, .. } => put_subrange(text, *element),
        Form::Block(_) => Ok(()),
    }
}

// What is wanted in place of an array.
fn array_line(wanted: Wanted) -> &'static str
    ensures { result.now ≡ array_line wanted }
{
    match wanted {
        Wanted::Scalars => "only a scalar is allowed there\n",
        Wanted::ScalarsAndArrays | Wanted::AllForms => "",
    }
}

// What is wanted in place of an instance.
fn instance_line(wanted: Wanted) -> &'static str
    ensures { result.now ≡ instance_line wanted }
{
    match wanted {
        Wanted::Scalars => "only a scalar is allowed there\n",
        Wanted::ScalarsAndArrays => "only a scalar or an array is allowed there\n",
        Wanted::AllForms => "",
    }
}

// What is wanted in place of a type.
fn wanted_line(wanted: Wanted, form: &Form) -> &'static str
    ensures { result.now ≡ wanted_line wanted form.now }
{
    match form {
        Form::Scalar(_) => "",
        Form::Array { .. } => array_line(wanted),
        Form::Block(_) => instance_line(wanted),
    }
}

// The names of a declaration with their type, and what is wanted, where that is the type.
fn put_written(
    text: &mut String,
    wanted: Wanted,
    offset: u32,
    declaration: &Declaration,
) -> Result<(), AllocError>
    ensures { OnOk result (Puts text.old text.new (written_lines wanted offset declaration.now)) }
{
    if declaration.declared.place.offset != offset {
        return Ok(());
    }
    let form = &declaration.declared.form;
    put_names(text, form, declaration.names.as_slice())?;
    text.push_str(wanted_line(wanted, form))?;
    put_form_subrange(text, form)
}

// Of declarations.
fn put_declarations(
    text: &mut String,
    wanted: Wanted,
    offset: u32,
    declarations: &[Declaration],
) -> Result<(), AllocError>
    ensures { OnOk result (Puts text.old text.new
        (flat_map (written_lines wanted offset) declarations.now)) }
{
    'declarations: for declaration in declarations {
        put_written(text, wanted, offset, declaration)?;
    }
    Ok(())
}

// ` in line 12`, and the end of the line.
fn put_in_line(text: &mut String, line: u32) -> Result<(), AllocError>
    ensures { OnOk result (Puts text.old text.new
        (codes " in line " ++ (decimal line ++ codes "\n"))) }
{
    writeln!(text, " in line {}", line)
}

// `the global V is BOOL in line 12`
fn put_found(text: &mut String, form: &Form, named: &Named) -> Result<(), AllocError>
    ensures { OnOk result (Puts text.old text.new
        (codes "the global " ++
        (form_words form.now named.now ++
        (codes " in line " ++ (decimal named.now.place.line ++ codes "\n"))))) }
{
    put(text, "the global ")?;
    put_form_words(text, form, named)?;
    put_in_line(text, named.place.line)
}

// The type of a global with this name, and its line.
fn put_global(text: &mut String, name: &str, form: &Form, named: &Named) -> Result<(), AllocError>
    ensures { OnOk result (Puts text.old text.new (global_line name.now form.now named.now)) }
{
    if named.name.as_str() == name {
        put_found(text, form, named)
    } else {
        Ok(())
    }
}

// Of the globals of a declaration.
fn put_named_globals(
    text: &mut String,
    name: &str,
    declaration: &Declaration,
) -> Result<(), AllocError>
    ensures { OnOk result (Puts text.old text.new (global_lines name.now declaration.now)) }
{
    'names: for named in declaration.names.as_slice() {
        put_global(text, name, &declaration.declared.form, named)?;
    }
    Ok(())
}

// Of the globals of an external.
fn put_globals(text: &mut String, globals: &[Declaration], named: &Named) -> Result<(), AllocError>
    ensures { OnOk result (Puts text.old text.new (globals_lines globals.now named.now)) }
{
    'globals: for declaration in globals {
        put_named_globals(text, named.name.as_str(), declaration)?;
    }
    Ok(())
}

// Of the globals of externals.
fn put_external_globals(
    text: &mut String,
    globals: &[Declaration],
    names: &[Named],
) -> Result<(), AllocError>
    ensures { OnOk result (Puts text.old text.new
        (flat_map (globals_lines globals.now) names.now)) }
{
    'names: for named in names {
        put_globals(text, globals, named)?;
    }
    Ok(())
}

// An external, where its type is the one.
fn put_external(
    text: &mut String,
    globals: &[Declaration],
    offset: u32,
    declaration: &Declaration,
) -> Result<(), AllocError>
    ensures { OnOk result (Puts text.old text.new
        (external_lines globals.now offset declaration.now)) }
{
    put_written(text, Wanted::ScalarsAndArrays, offset, declaration)?;
    if declaration.declared.place.offset == offset {
        put_external_globals(text, globals, declaration.names.as_slice())
    } else {
        Ok(())
    }
}

// Of externals.
fn put_externals(
    text: &mut String,
    globals: &[Declaration],
    offset: u32,
    externals: &[Declaration],
) -> Result<(), AllocError>
    ensures { OnOk result (Puts text.old text.new
        (flat_map (external_lines globals.now offset) externals.now)) }
{
    'externals: for declaration in externals {
        put_external(text, globals, offset, declaration)?;
    }
    Ok(())
}

// `F is BOOL (0..1)`, of a function.
fn put_typed(text: &mut String, scalar: Scalar, name: &Named) -> Result<(), AllocError>
    ensures { OnOk result (Puts text.old text.new (form_line (OfScalar scalar) name.now)) }
{
    text.push_str(name.name.as_str())?;
    text.push_str(" is ")?;
    put_scalar(text, scalar)?;
    text.push_str("\n")
}

// The type of a function's result.
fn put_result(
    text: &mut String,
    offset: u32,
    kind: UnitKind,
    name: &Named,
) -> Result<(), AllocError>
    ensures { OnOk result (Puts text.old text.new (result_lines offset kind name.now)) }
{
    match kind {
        UnitKind::Function(scalar, place) if place.offset == offset => {
            put_typed(text, scalar, name)?;
            put_subrange(text, scalar)
        }
        _ => Ok(()),
    }
}

// What the variables of a unit may be.
fn wanted_variables(kind: UnitKind) -> Wanted
    ensures { result ≡ wanted_variables kind }
{
    match kind {
        UnitKind::Function(..) => Wanted::Scalars,
        UnitKind::FunctionBlock | UnitKind::Program => Wanted::AllForms,
    }
}

// Of a unit.
fn put_unit(
    text: &mut String,
    globals: &[Declaration],
    offset: u32,
    unit: &Unit,
) -> Result<(), AllocError>
    ensures { OnOk result (Puts text.old text.new (unit_written globals.now offset unit.now)) }
{
    put_result(text, offset, unit.kind, &unit.name)?;
    put_declarations(text, Wanted::Scalars, offset, unit.inputs.as_slice())?;
    put_declarations(text, Wanted::Scalars, offset, unit.outputs.as_slice())?;
    let wanted = wanted_variables(unit.kind);
    put_declarations(text, wanted, offset, unit.variables.as_slice())?;
    put_externals(text, globals, offset, unit.externals.as_slice())
}

// Of units.
fn put_units(
    text: &mut String,
    globals: &[Declaration],
    offset: u32,
    units: &[Unit],
) -> Result<(), AllocError>
    ensures { OnOk result (Puts text.old text.new
        (flat_map (unit_written globals.now offset) units.now)) }
{
    'units: for unit in units {
        put_unit(text, globals, offset, unit)?;
    }
    Ok(())
}

/// The names whose type follows so many bytes, with that type, and what is wanted there; of an external also the globals with its name.
pub fn put_misplaced(text: &mut String, config: &Config, offset: u32) -> Result<(), AllocError>
    ensures { OnOk result (Puts text.old text.new (misplaced_lines config.now offset)) }
{
    let globals = config.globals.as_slice();
    put_units(text, globals, offset, config.units.as_slice())?;
    put_declarations(text, Wanted::ScalarsAndArrays, offset, globals)
}
