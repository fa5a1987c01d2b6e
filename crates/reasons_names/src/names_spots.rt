// Names with the places that report of them.

ghost use Rattle.std.specs.Prelude.{◌≡◌, ◌++◌, IfOk, OnOk, find, flat_map, map, option_map, option_copied, bytes_eq, slice_get};
ghost use Rattle.il_statics.specs.Declarations.{names_in, unit_names, labels_of};
ghost use Rattle.reasons_names.specs.NameSpots.{spot_shown, shown, headings, task_name, line_name, is_at, named_at, first_of};

use il_syntax::tree::{Body, Declaration, Named, Place, ProgramLine, Step, Task, Unit};
use load_scope::Scoped;
use std::alloc::{AllocError, Global};

/// A name, and the place that reports of it.
#[derive(Clone, Copy)]
pub struct Spot<'c> {
    pub name: &'c str,
    pub place: Place,
}

/// Whether two places are one, by their offsets.
pub fn is_at(here: Place, place: Place) -> bool
    ensures { result ≡ is_at here place }
{
    here.offset == place.offset
}

/// The first name that is at a place.
#[tactic(auto, using(crate::proofs::Spots::spot_found))]
pub fn named_at<'c>(spots: &[Spot<'c>], place: Place) -> Option<Spot<'c>>
    ensures { option_map spot_shown result ≡ named_at place (shown spots.now) }
{
    find_at(spots, place)
}

// The first name at a place, as a spot of the list.
fn find_at<'c>(spots: &[Spot<'c>], place: Place) -> Option<Spot<'c>>
    ensures { result ≡ find (λ s. is_at s.place place) spots.now }
{
    'spots: for spot in spots {
        if is_at(spot.place, place) {
            return Some(*spot);
        }
    }
    None
}

/// The first place of a name.
#[tactic(auto, using(crate::proofs::Spots::spot_found))]
pub fn first_of<'c>(spots: &[Spot<'c>], name: &str) -> Option<Spot<'c>>
    ensures { option_map spot_shown result ≡ first_of name.now (shown spots.now) }
{
    find_named(spots, name)
}

// The first place of a name, as a spot of the list.
fn find_named<'c>(spots: &[Spot<'c>], name: &str) -> Option<Spot<'c>>
    ensures { result ≡ find (λ s. bytes_eq s.name.now name.now) spots.now }
{
    'spots: for spot in spots {
        if spot.name == name {
            return Some(*spot);
        }
    }
    None
}

/// The names that declarations give, in the order of the text (IEC 61131-3:2003, 2.4.3).
pub fn declared_spots<'c>(
    alloc: Global,
    declarations: &'c [Declaration],
) -> Result<Vec<Spot<'c>>, AllocError>
    ensures { IfOk result (λ s. shown s.items ≡ names_in declarations.now) }
{
    let mut spots = Vec::new(alloc);
    push_declared(&mut spots, declarations)?;
    Ok(spots)
}

/// The names that a unit declares (2.4.3).
#[tactic(auto, using(crate::proofs::Spots::unit_names_of_lists))]
pub fn unit_spots<'c>(alloc: Global, unit: &'c Unit) -> Result<Vec<Spot<'c>>, AllocError>
    ensures { IfOk result (λ s. shown s.items ≡ unit_names unit.now) }
{
    let mut spots = Vec::new(alloc);
    push_declared(&mut spots, unit.inputs.as_slice())?;
    push_declared(&mut spots, unit.outputs.as_slice())?;
    push_declared(&mut spots, unit.variables.as_slice())?;
    push_declared(&mut spots, unit.externals.as_slice())?;
    Ok(spots)
}

/// The labels of a body (3.2.1).
pub fn label_spots<'c>(alloc: Global, body: &'c Body) -> Result<Vec<Spot<'c>>, AllocError>
    ensures { IfOk result (λ s. shown s.items ≡ labels_of body.now) }
{
    let mut spots = Vec::new(alloc);
    push_labels(&mut spots, body.steps.as_slice())?;
    push_named(&mut spots, body.last_labels.as_slice())?;
    Ok(spots)
}

// Adds the names that declarations give.
fn push_declared<'c>(
    spots: &mut Vec<Spot<'c>>,
    declarations: &'c [Declaration],
) -> Result<(), AllocError>
    ensures { OnOk result (shown spots.new.items ≡ shown spots.old.items
        ++ names_in declarations.now) }
{
    'declarations: for declaration in declarations {
        push_named(spots, declaration.names.as_slice())?;
    }
    Ok(())
}

// Adds the labels of instructions.
fn push_labels<'c>(spots: &mut Vec<Spot<'c>>, steps: &'c [Step]) -> Result<(), AllocError>
    ensures { OnOk result (shown spots.new.items ≡ shown spots.old.items
        ++ flat_map (λ s. s.labels) steps.now) }
{
    'steps: for step in steps {
        push_named(spots, step.labels.as_slice())?;
    }
    Ok(())
}

// Adds names where they are written.
fn push_named<'c>(spots: &mut Vec<Spot<'c>>, names: &'c [Named]) -> Result<(), AllocError>
    ensures { OnOk result (shown spots.new.items ≡ shown spots.old.items ++ names.now) }
{
    'names: for name in names {
        spots.push(Spot {
            name: name.name.as_str(),
            place: name.place,
        })?;
    }
    Ok(())
}

/// The unit of a number.
pub fn unit_at(names: &Scoped, number: usize) -> Option<&Unit>
    ensures { option_copied result ≡ slice_get names.now.units number }
{
    names.config().units.as_slice().get(number)
}

/// The names of units, each at its heading (2.5).
pub fn heading_spots<'c>(alloc: Global, units: &'c [Unit]) -> Result<Vec<Spot<'c>>, AllocError>
    ensures { IfOk result (λ s. shown s.items ≡ headings units.now) }
{
    let mut spots = Vec::new(alloc);
    'units: for unit in units {
        spots.push(Spot {
            name: unit.name.name.as_str(),
            place: unit.place,
        })?;
    }
    Ok(spots)
}

/// The names of tasks, each at its TASK line (2.7.2).
pub fn task_spots<'c>(alloc: Global, tasks: &'c [Task]) -> Result<Vec<Spot<'c>>, AllocError>
    ensures { IfOk result (λ s. shown s.items ≡ map task_name tasks.now) }
{
    let mut spots = Vec::new(alloc);
    'tasks: for task in tasks {
        spots.push(Spot {
            name: task.name.name.as_str(),
            place: task.place,
        })?;
    }
    Ok(spots)
}

/// The names of PROGRAM lines, each at its line (2.7.2).
pub fn line_spots<'c>(alloc: Global, lines: &'c [ProgramLine]) -> Result<Vec<Spot<'c>>, AllocError>
    ensures { IfOk result (λ s. shown s.items ≡ map line_name lines.now) }
{
    let mut spots = Vec::new(alloc);
    'lines: for line in lines {
        spots.push(Spot {
            name: line.name.name.as_str(),
            place: line.place,
        })?;
    }
    Ok(spots)
}
