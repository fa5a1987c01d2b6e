// What units use of the globals, by name and manner.

ghost use Rattle.std.specs.Prelude.{◌≡◌, ◌++◌, List, ℕ, map, IfOk, OnOk};
ghost use Rattle.std.specs.List.{list_any};
ghost use Rattle.show_names.specs.declared.uses.Manner.{Manner};
ghost use Rattle.show_names.specs.Xref.{uses_global, unit_places, unit_places_shown, global_places};
ghost use Rattle.show_names.specs.Lines.{AreSound, ArePlaced, HavePlaces, places_in, unit_lines, places_at};

use crate::lines::Lines;
use crate::names::declared_names;
use crate::unit_uses::UnitUses;
use crate::uses::Manner;
use base_lists::Items;
use base_maps::Table;
use il_syntax::tree::Unit;
use std::alloc::{AllocError, Global};

/// A unit, and the lines in which it uses a global.
#[derive(Drop)]
pub struct UnitLines<'c> {
    pub unit: &'c str,
    pub lines: Items<u32>,
}

/// Units, and the places where they use the globals that they list.
#[derive(Drop)]
pub struct GlobalUses<'c> {
    pub units: &'c [Unit],
    lines: Lines<UnitLines<'c>>,
    ghost holds: { HavePlaces lines units.now },
}

impl<'c> GlobalUses<'c> {
    /// The uses of the globals, in one pass over the bodies of the units that list some.
    pub fn of(alloc: Global, units: &'c [Unit]) -> Result<GlobalUses<'c>, AllocError>
        ensures { IfOk result (λ g. g.units.now ≡ units.now) }
    {
        let lines = places_of(alloc, units)?;
        Ok(GlobalUses { units, lines })
    }

    /// The units that use a global in a manner, each with the lines.
    pub fn places(&self, manner: Manner, name: &str) -> &[UnitLines<'c>]
        ensures { map unit_places_shown result.now ≡ global_places self.now.units.now name.now manner }
    {
        self.lines.of(manner, name)
    }

    /// Whether a unit that lists a global as an external uses it in a manner.
    pub fn is_used(&self, manner: Manner, name: &str) -> bool
        ensures { result ≡ list_any (uses_global manner name.now) self.now.units.now }
    {
        !self.places(manner, name).is_empty()
    }
}

// The places where units use globals.
fn places_of<'c>(alloc: Global, units: &'c [Unit]) -> Result<Lines<UnitLines<'c>>, AllocError>
    ensures { IfOk result (λ l. HavePlaces l units.now) }
{
    let mut lines = Lines::new(alloc);
    'units: for unit in units {
        add_unit(alloc, &mut lines, unit)?;
    }
    Ok(lines)
}

// Adds the places of a unit.
fn add_unit<'c>(
    alloc: Global,
    lines: &mut Lines<UnitLines<'c>>,
    unit: &'c Unit,
) -> Result<(), AllocError>
    requires { AreSound lines.old }
    ensures sound { OnOk result (AreSound lines.new) }
    ensures lines { OnOk result ((name : List ℕ) (manner : Manner) → places_in lines.new name manner
        ≡ places_in lines.old name manner ++ unit_places manner name unit.now) }
{
    if unit.externals.as_slice().is_empty() {
        return Ok(());
    }
    let uses = UnitUses::of(alloc, unit)?;
    add_externals(alloc, lines, &uses)
}

// Adds the places of the globals that a unit lists, of each once.
fn add_externals<'c>(
    alloc: Global,
    lines: &mut Lines<UnitLines<'c>>,
    uses: &UnitUses<'c>,
) -> Result<(), AllocError>
    requires { AreSound lines.old }
    ensures sound { OnOk result (AreSound lines.new) }
    ensures lines { OnOk result ((name : List ℕ) (manner : Manner) → places_in lines.new name manner
        ≡ places_in lines.old name manner ++ unit_places manner name uses.now.unit.now) }
{
    let mut seen = Table::new(alloc);
    'names: for declared in declared_names(uses.unit.externals.as_slice()) {
        if seen.get(declared.name).is_none() {
            add_external(alloc, lines, uses, declared.name)?;
            seen.put(alloc, declared.name, true)?;
        }
    }
    Ok(())
}

// Adds the places of one global.
fn add_external<'c>(
    alloc: Global,
    lines: &mut Lines<UnitLines<'c>>,
    uses: &UnitUses<'c>,
    name: &str,
) -> Result<(), AllocError>
    requires { AreSound lines.old }
    ensures sound { OnOk result (AreSound lines.new) }
    ensures lines { OnOk result ((other : List ℕ) (manner : Manner)
        → places_in lines.new other manner ≡ places_in lines.old other manner
        ++ places_at uses.now.unit.now name.now other manner) }
{
    add_places(alloc, lines, uses, Manner::Read, name)?;
    add_places(alloc, lines, uses, Manner::Written, name)?;
    add_places(alloc, lines, uses, Manner::Called, name)
}

// Adds the places of one global in one manner.
fn add_places<'c>(
    alloc: Global,
    lines: &mut Lines<UnitLines<'c>>,
    uses: &UnitUses<'c>,
    manner: Manner,
    name: &str,
) -> Result<(), AllocError>
    requires { AreSound lines.old }
    ensures sound { OnOk result (AreSound lines.new) }
    ensures lines { OnOk result (ArePlaced lines.old lines.new manner name.now
        (unit_lines manner name.now uses.now.unit.now)) }
{
    let used = uses.lines(manner, name);
    if used.is_empty() {
        return Ok(());
    }
    let unit = uses.unit.name.name.as_str();
    let places = unit_lines_of(alloc, unit, used)?;
    lines.push(alloc, manner, name, places)
}

// A unit with the lines of a use.
fn unit_lines_of<'c>(
    alloc: Global,
    unit: &'c str,
    used: &[u32],
) -> Result<UnitLines<'c>, AllocError>
    ensures unit { IfOk result (λ u. u.unit.now ≡ unit.now) }
    ensures lines { IfOk result (λ u. u.lines ≡ used.now) }
{
    let mut lines = Items::new(alloc);
    'lines: for line in used {
        lines.push(*line)?;
    }
    Ok(UnitLines { unit, lines })
}
