// The cross reference of a configuration.

ghost use Rattle.std.specs.Prelude.{◌≡◌, ◌++◌, ◌∷◌, ◌||◌, [], true, codes, flat_map, map, IfOk, OnOk, string_bytes};
ghost use Rattle.base_json.specs.Forms.{row_in};
ghost use Rattle.base_json.specs.Objects.{line_of, list_member, object, text_member};
ghost use Rattle.base_texts.specs.Puts.{Puts};
ghost use Rattle.json.specs.Token.{begin_array, key};
ghost use Rattle.show_names.specs.Names.{declared_names, name_shown};
ghost use Rattle.show_names.specs.Xref.{is_there, mark, behind, parts_text, manner_word, manner_key, used_part, used_parts, lines_text, line_tokens, lines_member, declared_members, used_members, use_text, use_member, declared_line, declared_row, declared_rows, other_line, other_row, other_rows, unit_rows, unit_places_shown, place_text, places_text, place_tokens, places_member, global_text, global_member, global_line, global_row, title_row, globals_rows, program_line, named_members, driven_members, program_members, program_row, programs_rows, xref_in};

use crate::global_uses::{GlobalUses, UnitLines};
use crate::names::{Declared, declared_names, name_table};
use crate::range_lines::put_heading;
use crate::unit_uses::UnitUses;
use crate::uses::{Manner, uses};
use base_json::form::Form;
use base_json::object::Object;
use il_syntax::tree::{Config, Declaration, ProgramLine, Unit};
use std::alloc::{AllocError, Global};

/// The cross reference: of each unit, in the order of the text, the names that it declares and the
/// other names that it uses, each with the lines in which it is declared, read, written and called;
/// then the globals with their uses in all units, and the PROGRAM lines (own rule). In a form: lines,
/// or an object for each of them.
pub fn xref_in(alloc: Global, form: Form, config: &Config) -> Result<String, AllocError>
    ensures { IfOk result (λ t. string_bytes t ≡ xref_in form config.now) }
{
    let mut text = String::new(alloc);
    let units = config.units.as_slice();
    put_units(alloc, &mut text, form, units)?;
    put_globals(alloc, &mut text, form, units, config.globals.as_slice())?;
    put_programs(alloc, &mut text, form, config.programs.as_slice())?;
    Ok(text)
}

fn put_units(alloc: Global, text: &mut String, form: Form, units: &[Unit]) -> Result<(), AllocError>
    ensures { OnOk result (Puts text.old text.new (flat_map (unit_rows form) units.now)) }
{
    'units: for unit in units {
        put_unit(alloc, text, form, unit)?;
    }
    Ok(())
}

fn put_unit(alloc: Global, text: &mut String, form: Form, unit: &Unit) -> Result<(), AllocError>
    ensures { OnOk result (Puts text.old text.new (unit_rows form unit.now)) }
{
    let uses = UnitUses::of(alloc, unit)?;
    put_unit_uses(alloc, text, form, &uses)
}

fn put_unit_uses(
    alloc: Global,
    text: &mut String,
    form: Form,
    uses: &UnitUses<'_>,
) -> Result<(), AllocError>
    ensures { OnOk result (Puts text.old text.new (unit_rows form uses.now.unit.now)) }
{
    let unit = uses.unit;
    put_heading(alloc, text, form, unit)?;
    put_declared(alloc, text, form, uses, unit.inputs.as_slice())?;
    put_declared(alloc, text, form, uses, unit.outputs.as_slice())?;
    put_declared(alloc, text, form, uses, unit.variables.as_slice())?;
    put_declared(alloc, text, form, uses, unit.externals.as_slice())?;
    put_others(alloc, text, form, uses)
}

// The names that declarations give.
fn put_declared(
    alloc: Global,
    text: &mut String,
    form: Form,
    uses: &UnitUses<'_>,
    declarations: &[Declaration],
) -> Result<(), AllocError>
    ensures { OnOk result (Puts text.old text.new
        (declared_rows form uses.now.unit.now.body.steps declarations.now)) }
{
    'names: for name in declared_names(declarations) {
        put_declared_row(alloc, text, form, uses, &name)?;
    }
    Ok(())
}

fn put_declared_row(
    alloc: Global,
    text: &mut String,
    form: Form,
    uses: &UnitUses<'_>,
    name: &Declared<'_>,
) -> Result<(), AllocError>
    ensures { OnOk result (Puts text.old text.new
        (declared_row form uses.now.unit.now.body.steps (name_shown name.now))) }
{
    match form {
        Form::Plain => put_declared_line(alloc, text, uses, name),
        Form::Json => {
            let mut object = Object::begin(alloc)?;
            add_declared(&mut object, name)?;
            add_uses(&mut object, uses, name.name)?;
            object.put_line(text)
        }
    }
}

#[tactic(auto, unfolding(crate::specs::Xref::declared_line))]
fn put_declared_line(
    alloc: Global,
    text: &mut String,
    uses: &UnitUses<'_>,
    name: &Declared<'_>,
) -> Result<(), AllocError>
    ensures { OnOk result (Puts text.old text.new
        (declared_line uses.now.unit.now.body.steps (name_shown name.now))) }
{
    write!(text, "  {}: declared {}", name.name, name.line)?;
    put_uses(alloc, text, uses, name.name, true)?;
    text.push_str("\n")
}

// A name, and where it is declared.
fn add_declared(object: &mut Object, name: &Declared<'_>) -> Result<(), AllocError>
    ensures { OnOk result (object.new ≡ object.old ++ declared_members name.now.name.now name.now.line) }
{
    object.text_member("name", name.name)?;
    add_lines(object, "declared", &[name.line])
}

// The names that a unit uses and does not declare, each at its first use.
fn put_others(
    alloc: Global,
    text: &mut String,
    form: Form,
    unit: &UnitUses<'_>,
) -> Result<(), AllocError>
    ensures { OnOk result (Puts text.old text.new (other_rows form unit.now.unit.now)) }
{
    let mut seen = name_table(alloc, unit.unit)?;
    'uses: for used in uses(unit.unit.body.steps.as_slice()) {
        if seen.get(used.name).is_none() {
            put_other_row(alloc, text, form, unit, used.name)?;
            seen.put(alloc, used.name, true)?;
        }
    }
    Ok(())
}

fn put_other_row(
    alloc: Global,
    text: &mut String,
    form: Form,
    uses: &UnitUses<'_>,
    name: &str,
) -> Result<(), AllocError>
    ensures { OnOk result (Puts text.old text.new
        (other_row form uses.now.unit.now.body.steps name.now)) }
{
    match form {
        Form::Plain => put_other_line(alloc, text, uses, name),
        Form::Json => {
            let mut object = Object::begin(alloc)?;
            object.text_member("name", name)?;
            add_uses(&mut object, uses, name)?;
            object.put_line(text)
        }
    }
}

#[tactic(auto, unfolding(crate::specs::Xref::other_line))]
fn put_other_line(
    alloc: Global,
    text: &mut String,
    uses: &UnitUses<'_>,
    name: &str,
) -> Result<(), AllocError>
    ensures { OnOk result (Puts text.old text.new
        (other_line uses.now.unit.now.body.steps name.now)) }
{
    write!(text, "  {}", name)?;
    put_uses(alloc, text, uses, name, false)?;
    text.push_str("\n")
}

// Where a unit uses a name, in each manner; `begun` says whether a part comes before.
fn put_uses(
    alloc: Global,
    text: &mut String,
    uses: &UnitUses<'_>,
    name: &str,
    begun: bool,
) -> Result<(), AllocError>
    ensures { OnOk result (Puts text.old text.new
        (parts_text begun (used_parts (use_text uses.now.unit.now.body.steps name.now)))) }
{
    let begun = put_used_lines(alloc, text, Manner::Read, uses, name, begun)?;
    let begun = put_used_lines(alloc, text, Manner::Written, uses, name, begun)?;
    put_used_lines(alloc, text, Manner::Called, uses, name, begun)?;
    Ok(())
}

// Where a unit uses a name in one manner, and whether a part comes before the next.
fn put_used_lines(
    alloc: Global,
    text: &mut String,
    manner: Manner,
    uses: &UnitUses<'_>,
    name: &str,
    begun: bool,
) -> Result<bool, AllocError>
    ensures text { OnOk result (Puts text.old text.new (behind (mark begun)
        (used_part manner (use_text uses.now.unit.now.body.steps name.now manner)))) }
    ensures begun { IfOk result (λ b. b ≡ (begun
        || is_there (used_part manner (use_text uses.now.unit.now.body.steps name.now manner)))) }
{
    let mut places = String::new(alloc);
    put_lines(&mut places, uses.lines(manner, name))?;
    put_used(text, manner, &places, begun)
}

// Lines, each after a blank.
fn put_lines(text: &mut String, lines: &[u32]) -> Result<(), AllocError>
    ensures { OnOk result (Puts text.old text.new (lines_text lines.now)) }
{
    'lines: for line in lines {
        write!(text, " {}", *line)?;
    }
    Ok(())
}

// Where a name is used in one manner, and whether a part comes before the next.
fn put_used(
    text: &mut String,
    manner: Manner,
    places: &str,
    begun: bool,
) -> Result<bool, AllocError>
    ensures text { OnOk result (Puts text.old text.new
        (behind (mark begun) (used_part manner places.now))) }
    ensures begun { IfOk result (λ b. b ≡ (begun || is_there (used_part manner places.now))) }
{
    if places.is_empty() {
        return Ok(begun);
    }
    put_word(text, manner, begun)?;
    text.push_str(places)?;
    Ok(true)
}

// The word of a manner, after its mark.
fn put_word(text: &mut String, manner: Manner, begun: bool) -> Result<(), AllocError>
    ensures { OnOk result (Puts text.old text.new (mark begun ++ manner_word manner)) }
{
    text.push_str(if begun { "," } else { ":" })?;
    match manner {
        Manner::Read => text.push_str(" read"),
        Manner::Written => text.push_str(" written"),
        Manner::Called => text.push_str(" called"),
    }
}

// The uses of a name in a unit, as members.
fn add_uses(object: &mut Object, uses: &UnitUses<'_>, name: &str) -> Result<(), AllocError>
    ensures { OnOk result (object.new ≡ object.old
        ++ used_members (use_member uses.now.unit.now.body.steps name.now)) }
{
    add_used(object, uses, Manner::Read, name)?;
    add_used(object, uses, Manner::Written, name)?;
    add_used(object, uses, Manner::Called, name)
}

fn add_used(
    object: &mut Object,
    uses: &UnitUses<'_>,
    manner: Manner,
    name: &str,
) -> Result<(), AllocError>
    ensures { OnOk result (object.new ≡ object.old
        ++ use_member uses.now.unit.now.body.steps name.now manner) }
{
    add_lines_there(object, manner_key(manner), uses.lines(manner, name))
}

// The name of a manner.
fn manner_key(manner: Manner) -> &'static str
    ensures { result.now ≡ manner_key manner }
{
    match manner {
        Manner::Read => "read",
        Manner::Written => "written",
        Manner::Called => "called",
    }
}

// A list of lines, if there are any.
fn add_lines_there(object: &mut Object, name: &str, lines: &[u32]) -> Result<(), AllocError>
    ensures { OnOk result (object.new ≡ object.old ++ lines_member name.now lines.now) }
{
    match lines.split_first() {
        Some(_) => add_lines(object, name, lines),
        None => Ok(()),
    }
}

// A list of lines.
fn add_lines(object: &mut Object, name: &str, lines: &[u32]) -> Result<(), AllocError>
    ensures { OnOk result (object.new ≡ object.old ++ list_member name.now (line_tokens lines.now)) }
{
    begin_list(object, name)?;
    add_each_line(object, lines)?;
    object.end_list()
}

fn begin_list(object: &mut Object, name: &str) -> Result<(), AllocError>
    ensures { OnOk result (object.new ≡ object.old ++ key name.now ∷ begin_array ∷ []) }
{
    object.key(name)?;
    object.begin_list()
}

fn add_each_line(object: &mut Object, lines: &[u32]) -> Result<(), AllocError>
    ensures { OnOk result (object.new ≡ object.old ++ line_tokens lines.now) }
{
    'lines: for line in lines {
        object.number(u64::from(*line))?;
    }
    Ok(())
}

// The heading of the globals, or of the PROGRAM lines.
fn put_title(alloc: Global, text: &mut String, form: Form, title: &str) -> Result<(), AllocError>
    ensures { OnOk result (Puts text.old text.new (title_row form title.now)) }
{
    match form {
        Form::Plain => {
            text.push_str(title)?;
            text.push_str("\n")
        }
        Form::Json => {
            let mut object = Object::begin(alloc)?;
            object.text_member("kind", title)?;
            object.put_line(text)
        }
    }
}

fn put_globals(
    alloc: Global,
    text: &mut String,
    form: Form,
    units: &[Unit],
    globals: &[Declaration],
) -> Result<(), AllocError>
    ensures { OnOk result (Puts text.old text.new (globals_rows form units.now globals.now)) }
{
    if globals.is_empty() {
        return Ok(());
    }
    put_title(alloc, text, form, "GLOBALS")?;
    put_global_parts(alloc, text, form, units, globals)
}

fn put_global_parts(
    alloc: Global,
    text: &mut String,
    form: Form,
    units: &[Unit],
    globals: &[Declaration],
) -> Result<(), AllocError>
    ensures { OnOk result (Puts text.old text.new
        (flat_map (global_row form units.now) (declared_names globals.now))) }
{
    let uses = GlobalUses::of(alloc, units)?;
    put_global_rows(alloc, text, form, &uses, globals)
}

fn put_global_rows(
    alloc: Global,
    text: &mut String,
    form: Form,
    uses: &GlobalUses<'_>,
    globals: &[Declaration],
) -> Result<(), AllocError>
    ensures { OnOk result (Puts text.old text.new
        (flat_map (global_row form uses.now.units.now) (declared_names globals.now))) }
{
    'names: for name in declared_names(globals) {
        put_global_row(alloc, text, form, uses, &name)?;
    }
    Ok(())
}

fn put_global_row(
    alloc: Global,
    text: &mut String,
    form: Form,
    uses: &GlobalUses<'_>,
    name: &Declared<'_>,
) -> Result<(), AllocError>
    ensures { OnOk result (Puts text.old text.new
        (global_row form uses.now.units.now (name_shown name.now))) }
{
    match form {
        Form::Plain => put_global_line(alloc, text, uses, name),
        Form::Json => {
            let mut object = Object::begin(alloc)?;
            add_declared(&mut object, name)?;
            add_global_uses(&mut object, uses, name.name)?;
            object.put_line(text)
        }
    }
}

#[tactic(auto, unfolding(crate::specs::Xref::global_line))]
fn put_global_line(
    alloc: Global,
    text: &mut String,
    uses: &GlobalUses<'_>,
    name: &Declared<'_>,
) -> Result<(), AllocError>
    ensures { OnOk result (Puts text.old text.new
        (global_line uses.now.units.now (name_shown name.now))) }
{
    write!(text, "  {}: declared {}", name.name, name.line)?;
    put_global_uses(alloc, text, uses, name.name)?;
    text.push_str("\n")
}

// Where units use a global, in each manner, after the line where it is declared.
fn put_global_uses(
    alloc: Global,
    text: &mut String,
    uses: &GlobalUses<'_>,
    name: &str,
) -> Result<(), AllocError>
    ensures { OnOk result (Puts text.old text.new
        (parts_text true (used_parts (global_text uses.now.units.now name.now)))) }
{
    let begun = put_used_places(alloc, text, Manner::Read, uses, name, true)?;
    let begun = put_used_places(alloc, text, Manner::Written, uses, name, begun)?;
    put_used_places(alloc, text, Manner::Called, uses, name, begun)?;
    Ok(())
}

// Where units use a global in one manner, and whether a part comes before the next.
fn put_used_places(
    alloc: Global,
    text: &mut String,
    manner: Manner,
    uses: &GlobalUses<'_>,
    name: &str,
    begun: bool,
) -> Result<bool, AllocError>
    ensures text { OnOk result (Puts text.old text.new (behind (mark begun)
        (used_part manner (global_text uses.now.units.now name.now manner)))) }
    ensures begun { IfOk result (λ b. b ≡ (begun
        || is_there (used_part manner (global_text uses.now.units.now name.now manner)))) }
{
    let mut places = String::new(alloc);
    put_places(&mut places, uses.places(manner, name))?;
    put_used(text, manner, &places, begun)
}

// Units with their lines, each after a blank.
fn put_places(text: &mut String, places: &[UnitLines<'_>]) -> Result<(), AllocError>
    ensures { OnOk result (Puts text.old text.new
        (places_text (map unit_places_shown places.now))) }
{
    'places: for place in places {
        put_place(text, place)?;
    }
    Ok(())
}

fn put_place(text: &mut String, place: &UnitLines<'_>) -> Result<(), AllocError>
    ensures { OnOk result (Puts text.old text.new (place_text (unit_places_shown place.now))) }
{
    text.push_str(" ")?;
    text.push_str(place.unit)?;
    put_lines(text, place.lines.as_slice())
}

// The uses of a global, as members.
fn add_global_uses(object: &mut Object, uses: &GlobalUses<'_>, name: &str) -> Result<(), AllocError>
    ensures { OnOk result (object.new ≡ object.old
        ++ used_members (global_member uses.now.units.now name.now)) }
{
    add_global_used(object, uses, Manner::Read, name)?;
    add_global_used(object, uses, Manner::Written, name)?;
    add_global_used(object, uses, Manner::Called, name)
}

fn add_global_used(
    object: &mut Object,
    uses: &GlobalUses<'_>,
    manner: Manner,
    name: &str,
) -> Result<(), AllocError>
    ensures { OnOk result (object.new ≡ object.old
        ++ global_member uses.now.units.now name.now manner) }
{
    add_places_there(object, manner_key(manner), uses.places(manner, name))
}

// A list of places, if there are any.
fn add_places_there(
    object: &mut Object,
    name: &str,
    places: &[UnitLines<'_>],
) -> Result<(), AllocError>
    ensures { OnOk result (object.new ≡ object.old
        ++ places_member name.now (map unit_places_shown places.now)) }
{
    match places.split_first() {
        Some(_) => add_places(object, name, places),
        None => Ok(()),
    }
}

fn add_places(object: &mut Object, name: &str, places: &[UnitLines<'_>]) -> Result<(), AllocError>
    ensures { OnOk result (object.new ≡ object.old ++ list_member name.now
        (flat_map place_tokens (map unit_places_shown places.now))) }
{
    begin_list(object, name)?;
    add_each_place(object, places)?;
    object.end_list()
}

fn add_each_place(object: &mut Object, places: &[UnitLines<'_>]) -> Result<(), AllocError>
    ensures { OnOk result (object.new ≡ object.old
        ++ flat_map place_tokens (map unit_places_shown places.now)) }
{
    'places: for place in places {
        add_place(object, place)?;
    }
    Ok(())
}

fn add_place(object: &mut Object, place: &UnitLines<'_>) -> Result<(), AllocError>
    ensures { OnOk result (object.new ≡ object.old
        ++ place_tokens (unit_places_shown place.now)) }
{
    object.begin_object()?;
    object.text_member("unit", place.unit)?;
    add_lines(object, "lines", place.lines.as_slice())?;
    object.end_object()
}

fn put_programs(
    alloc: Global,
    text: &mut String,
    form: Form,
    programs: &[ProgramLine],
) -> Result<(), AllocError>
    ensures { OnOk result (Puts text.old text.new (programs_rows form programs.now)) }
{
    if programs.is_empty() {
        return Ok(());
    }
    put_title(alloc, text, form, "PROGRAMS")?;
    put_program_rows(alloc, text, form, programs)
}

fn put_program_rows(
    alloc: Global,
    text: &mut String,
    form: Form,
    programs: &[ProgramLine],
) -> Result<(), AllocError>
    ensures { OnOk result (Puts text.old text.new (flat_map (program_row form) programs.now)) }
{
    'lines: for line in programs {
        put_program_row(alloc, text, form, line)?;
    }
    Ok(())
}

fn put_program_row(
    alloc: Global,
    text: &mut String,
    form: Form,
    line: &ProgramLine,
) -> Result<(), AllocError>
    ensures { OnOk result (Puts text.old text.new (program_row form line.now)) }
{
    match form {
        Form::Plain => put_program_line(text, line),
        Form::Json => {
            let mut object = Object::begin(alloc)?;
            add_program(&mut object, line)?;
            object.put_line(text)
        }
    }
}

#[tactic(auto, unfolding(crate::specs::Xref::program_line))]
fn put_program_line(text: &mut String, line: &ProgramLine) -> Result<(), AllocError>
    ensures { OnOk result (Puts text.old text.new (program_line line.now)) }
{
    write!(
        text,
        "  {} line {}: ",
        line.name.name.as_str(),
        line.place.line
    )?;
    writeln!(
        text,
        "{} with {}",
        line.program.name.as_str(),
        line.task.name.as_str()
    )
}

fn add_program(object: &mut Object, line: &ProgramLine) -> Result<(), AllocError>
    ensures { OnOk result (object.new ≡ object.old ++ program_members line.now) }
{
    add_named(object, line.name.name.as_str(), line.place.line)?;
    add_driven(object, line.program.name.as_str(), line.task.name.as_str())
}

// The name of a PROGRAM line, and its line.
#[tactic(auto, unfolding(crate::specs::Xref::named_members))]
fn add_named(object: &mut Object, name: &str, line: u32) -> Result<(), AllocError>
    ensures { OnOk result (object.new ≡ object.old ++ named_members name.now line) }
{
    object.text_member("program", name)?;
    object.number_member("line", u64::from(line))
}

// Its unit, and the task that runs it.
#[tactic(auto, unfolding(crate::specs::Xref::driven_members))]
fn add_driven(object: &mut Object, unit: &str, task: &str) -> Result<(), AllocError>
    ensures { OnOk result (object.new ≡ object.old ++ driven_members unit.now task.now) }
{
    object.text_member("unit", unit)?;
    object.text_member("task", task)
}
