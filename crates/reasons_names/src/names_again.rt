// What is reported of a name that is declared again (20).

ghost use Rattle.std.specs.Prelude.{◌≡◌, Some, None, if◌then◌else◌, OnOk, flat_map, map, option_map};
ghost use Rattle.base_texts.specs.Puts.{Puts};
ghost use Rattle.il_statics.specs.Declarations.{names_in, labels_of};
ghost use Rattle.reasons_names.specs.NameSpots.{shown, spot_shown, task_name, line_name, is_at, first_of};
ghost use Rattle.reasons_names.specs.NamesAgain.{again_line, unit_line, predeclared_line, earlier_line, again_text, unit_text, predeclared_text, other_text, heading_text, variable_text, unit_names_text, again_lines};

use crate::names_spots::{
    Spot, declared_spots, first_of, heading_spots, label_spots, line_spots, named_at, task_spots,
    unit_spots,
};
use crate::writing::{put_in_line, put_two};
use il_syntax::tree::{Body, Declaration, Place, ProgramLine, Task, Unit};
use load_scope::Scoped;
use std::alloc::{AllocError, Global};

/// Adds what is reported of the name that is declared again at a place: that it is predeclared, a unit's, or declared before (own rule).
#[tactic(auto, unfolding(crate::specs::NamesAgain::again_lines))]
pub fn put_again_at(
    alloc: Global,
    text: &mut String,
    names: &Scoped,
    place: Place,
) -> Result<(), AllocError>
    ensures { OnOk result (Puts text.old text.new (again_lines names.now place)) }
{
    let config = names.config();
    let units = heading_spots(alloc, config.units.as_slice())?;
    put_heading(text, names, units.as_slice(), place)?;
    put_units(
        alloc,
        text,
        names,
        units.as_slice(),
        config.units.as_slice(),
        place,
    )?;
    put_globals(
        alloc,
        text,
        names,
        units.as_slice(),
        config.globals.as_slice(),
        place,
    )?;
    put_tasks(alloc, text, config.tasks.as_slice(), place)?;
    put_lines(alloc, text, config.programs.as_slice(), place)
}

// Of a unit among the units.
fn put_heading(
    text: &mut String,
    names: &Scoped,
    units: &[Spot<'_>],
    place: Place,
) -> Result<(), AllocError>
    ensures { OnOk result (Puts text.old text.new
        (heading_text names.now place (shown units.now))) }
{
    match named_at(units, place) {
        Some(spot) => {
            put_predeclared(text, names, spot)?;
            put_again(text, units, spot)
        }
        None => Ok(()),
    }
}

// Of the variables and labels of units.
fn put_units(
    alloc: Global,
    text: &mut String,
    names: &Scoped,
    units: &[Spot<'_>],
    trees: &[Unit],
    place: Place,
) -> Result<(), AllocError>
    ensures { OnOk result (Puts text.old text.new
        (flat_map (unit_names_text names.now (shown units.now) place) trees.now)) }
{
    'units: for unit in trees {
        put_unit_names(alloc, text, names, units, unit, place)?;
    }
    Ok(())
}

// Of the variables and labels of a unit.
fn put_unit_names(
    alloc: Global,
    text: &mut String,
    names: &Scoped,
    units: &[Spot<'_>],
    unit: &Unit,
    place: Place,
) -> Result<(), AllocError>
    ensures { OnOk result (Puts text.old text.new
        (unit_names_text names.now (shown units.now) place unit.now)) }
{
    let variables = unit_spots(alloc, unit)?;
    put_variable(text, names, units, variables.as_slice(), place)?;
    put_labels(alloc, text, &unit.body, place)
}

// Of a label among those of a body.
fn put_labels(alloc: Global, text: &mut String, body: &Body, place: Place) -> Result<(), AllocError>
    ensures { OnOk result (Puts text.old text.new (other_text place (labels_of body.now))) }
{
    let labels = label_spots(alloc, body)?;
    put_other(text, labels.as_slice(), place)
}

// Of a global among the globals.
fn put_globals(
    alloc: Global,
    text: &mut String,
    names: &Scoped,
    units: &[Spot<'_>],
    globals: &[Declaration],
    place: Place,
) -> Result<(), AllocError>
    ensures { OnOk result (Puts text.old text.new
        (variable_text names.now (shown units.now) place (names_in globals.now))) }
{
    let spots = declared_spots(alloc, globals)?;
    put_variable(text, names, units, spots.as_slice(), place)
}

// Of a task among the TASK lines.
fn put_tasks(
    alloc: Global,
    text: &mut String,
    tasks: &[Task],
    place: Place,
) -> Result<(), AllocError>
    ensures { OnOk result (Puts text.old text.new (other_text place (map task_name tasks.now))) }
{
    let spots = task_spots(alloc, tasks)?;
    put_other(text, spots.as_slice(), place)
}

// Of a PROGRAM line among the PROGRAM lines.
fn put_lines(
    alloc: Global,
    text: &mut String,
    lines: &[ProgramLine],
    place: Place,
) -> Result<(), AllocError>
    ensures { OnOk result (Puts text.old text.new (other_text place (map line_name lines.now))) }
{
    let spots = line_spots(alloc, lines)?;
    put_other(text, spots.as_slice(), place)
}

// Of a unit's variable or a global among those of its list.
fn put_variable(
    text: &mut String,
    names: &Scoped,
    units: &[Spot<'_>],
    spots: &[Spot<'_>],
    place: Place,
) -> Result<(), AllocError>
    ensures { OnOk result (Puts text.old text.new
        (variable_text names.now (shown units.now) place (shown spots.now))) }
{
    match named_at(spots, place) {
        Some(spot) => {
            put_predeclared(text, names, spot)?;
            put_unit(text, units, spot)?;
            put_again(text, spots, spot)
        }
        None => Ok(()),
    }
}

// Of a label, a task or a PROGRAM line among those of its list.
fn put_other(text: &mut String, spots: &[Spot<'_>], place: Place) -> Result<(), AllocError>
    ensures { OnOk result (Puts text.old text.new (other_text place (shown spots.now))) }
{
    match named_at(spots, place) {
        Some(spot) => put_again(text, spots, spot),
        None => Ok(()),
    }
}

// That no text may declare the name.
fn put_predeclared(text: &mut String, names: &Scoped, spot: Spot<'_>) -> Result<(), AllocError>
    ensures { OnOk result (Puts text.old text.new
        (predeclared_text names.now (spot_shown spot.entry))) }
{
    if names.is_predeclared(spot.name) {
        put_predeclared_line(text, spot.name)
    } else {
        Ok(())
    }
}

// That a unit has the name.
fn put_unit(text: &mut String, units: &[Spot<'_>], spot: Spot<'_>) -> Result<(), AllocError>
    ensures { OnOk result (Puts text.old text.new
        (unit_text (shown units.now) (spot_shown spot.entry))) }
{
    match line_of(units, spot.name) {
        Some(line) => put_unit_line(text, spot.name, line),
        None => Ok(()),
    }
}

// That an earlier one has the name.
fn put_again(text: &mut String, spots: &[Spot<'_>], spot: Spot<'_>) -> Result<(), AllocError>
    ensures { OnOk result (Puts text.old text.new
        (again_text (shown spots.now) (spot_shown spot.entry))) }
{
    match earlier_line(spots, spot) {
        Some(line) => put_again_line(text, spot.name, line),
        None => Ok(()),
    }
}

// The line of the first place of a name.
fn line_of(spots: &[Spot<'_>], name: &str) -> Option<u32>
    ensures { result ≡ option_map (λ n. n.place.line) (first_of name.now (shown spots.now)) }
{
    match first_of(spots, name) {
        Some(first) => Some(first.place.line),
        None => None,
    }
}

// The line of another of the same name, which comes before.
fn earlier_line(spots: &[Spot<'_>], spot: Spot<'_>) -> Option<u32>
    ensures { result ≡ earlier_line (shown spots.now) (spot_shown spot.entry) }
{
    match first_of(spots, spot.name) {
        Some(first) => line_elsewhere(first, spot.place),
        None => None,
    }
}

// The line of a name that is elsewhere.
fn line_elsewhere(spot: Spot<'_>, place: Place) -> Option<u32>
    ensures { result ≡ (if is_at spot.entry.place place then None else Some spot.entry.place.line) }
{
    if spot.place.offset == place.offset {
        None
    } else {
        Some(spot.place.line)
    }
}

#[tactic(auto, unfolding(crate::specs::NamesAgain::again_line))]
fn put_again_line(text: &mut String, name: &str, line: u32) -> Result<(), AllocError>
    ensures { OnOk result (Puts text.old text.new (again_line name.now line)) }
{
    put_in_line(text, name, " is declared in line ", line, " already\n")
}

#[tactic(auto, unfolding(crate::specs::NamesAgain::unit_line))]
fn put_unit_line(text: &mut String, name: &str, line: u32) -> Result<(), AllocError>
    ensures { OnOk result (Puts text.old text.new (unit_line name.now line)) }
{
    put_in_line(text, name, " is the unit of line ", line, "\n")
}

#[tactic(auto, unfolding(crate::specs::NamesAgain::predeclared_line))]
fn put_predeclared_line(text: &mut String, name: &str) -> Result<(), AllocError>
    ensures { OnOk result (Puts text.old text.new (predeclared_line name.now)) }
{
    put_two(text, name, " is a predeclared name\n")
}
