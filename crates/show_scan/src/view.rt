// The open scan of a task, as it is.

ghost use Rattle.std.specs.Prelude.{◌≡◌, ◌+◌, IfOk, IfSome, Some, bytes_eq, drop, find, length, option_copied, option_map, slice_get, string_bytes};
ghost use Rattle.base_maps.specs.NameMap.{get};
ghost use Rattle.il_statics.specs.Names.{unit_named};
ghost use Rattle.il_semantics.specs.Meaning.{under};
ghost use Rattle.il_semantics.specs.State.{Frame};
ghost use Rattle.scan_loop.specs.Framing.{path_in, path_over, instruction_in};
ghost use Rattle.group_spec.specs.World.{scan_at};
ghost use Rattle.show_scan.specs.Stands.{of_stand, stand_at, step_at, path_of_step};
ghost use Rattle.show_scan.specs.Lines.{lines_of};

use crate::chosen::Lines;
use group_world::World;
use il_semantics::value::Content;
use il_syntax::tree::{Instruction, Step, Unit};
use scan_task::{Store, Value, Verified};
use std::alloc::{AllocError, Global};
use std::marker::Model;

/// The open scan of a task, as it is.
#[derive(Drop)]
pub struct View<'v> {
    verified: &'v Verified,
    store: &'v Store,
}

impl<'v> Model for View<'v> {
    ghost use Rattle.std.specs.Prelude.{◌≡◌};
    ghost use Rattle.scan_task.specs.Standing.{Standing, standing_code};

    ghost Value = { Standing };

    ghost coded = { standing_code };

    ghost view = { λ v. v.store.now };

    ghost invariant = { λ v. v.store.now.config ≡ v.verified.now.config };
}

/// A body that runs or has called: its unit, its path, and the place at which it is.
#[derive(Drop)]
pub struct Stand {
    pub unit: String,
    pub path: String,
    pub place: usize,
}

impl<'v> View<'v> {
    /// That of a task of a world, if it has one.
    pub fn of(world: &'v World, task: u8) -> Option<View<'v>>
        ensures stands { option_map (λ s. s.state) result ≡ scan_at world.now.world task }
        ensures config { IfSome result (λ s. s.config ≡ world.now.program.config) }
    {
        let store = world.scan(task)?;
        Some(View {
            verified: world.verified(),
            store,
        })
    }

    /// How many bodies run or have called; none after the scan's end.
    pub fn depth(&self) -> usize
        ensures { result ≡ length self.now.state.frames }
    {
        self.store.depth()
    }

    /// The current result, if there is one.
    pub fn result(&self) -> Option<Content>
        ensures { result ≡ self.now.state.result }
    {
        self.store.result()
    }

    /// The value at a path.
    pub fn value(&self, path: &str) -> Option<Value>
        ensures { result ≡ get self.now.state.values path.now }
    {
        self.store.value(self.verified, path)
    }

    /// The unit of a name.
    pub fn unit(&self, name: &str) -> Option<&'v Unit>
        ensures { option_copied result ≡ unit_named self.now.config name.now }
    {
        unit_named(self.verified, name)
    }

    /// The instruction of a unit at a place, if it is no implicit RET.
    pub fn step(&self, unit: &str, place: usize) -> Option<&'v Step>
        ensures { option_copied result ≡ step_at self.now.config unit.now place }
    {
        self.unit(unit)?.body.steps.as_slice().get(place)
    }

    /// The body at a level, the one that runs at 0.
    pub fn stand(&self, alloc: Global, level: usize) -> Result<Option<Stand>, AllocError>
        ensures { IfOk result (λ o. option_map of_stand o ≡ stand_at self.now.state level) }
    {
        self.store.stacks();
        let Some(standpoint) = self.store.standpoint(self.verified, level) else {
            return Ok(None);
        };
        Ok(Some(Stand {
            unit: String::from_str(alloc, standpoint.unit)?,
            path: self.path(alloc, level)?,
            place: standpoint.place,
        }))
    }

    // The path of the body at a level: from the program's on, what each body runs.
    fn path(&self, alloc: Global, level: usize) -> Result<String, AllocError>
        ensures { IfOk result (λ p. string_bytes p
            ≡ path_over self.now.config (drop (level + 1) self.now.state.frames)) }
    {
        self.store.stacks();
        let mut path = String::new(alloc);
        let mut left = self.depth();
        'callers: while left.saturating_sub(1) > level {
            left -= 1;
            path = self.path_above(alloc, path, left)?;
        }
        Ok(path)
    }

    // The path of what the body at a level runs, by its own.
    fn path_above(&self, alloc: Global, path: String, level: usize) -> Result<String, AllocError>
        ensures { IfOk result (λ p. (f : Frame) → slice_get self.now.state.frames level ≡ Some f
            → string_bytes p ≡ path_in (string_bytes path) (instruction_in self.now.config f)) }
    {
        match self.store.standpoint(self.verified, level) {
            Some(caller) => path_in(alloc, path, self.step(caller.unit, caller.place)),
            None => Ok(String::new(alloc)),
        }
    }
}

/// The lines of the unit of a name, from its heading to its END word, if the text has one.
pub fn lines_of_unit(verified: &Verified, name: &str) -> Option<Lines>
    ensures { result ≡ option_map lines_of (unit_named verified.now.config name.now) }
{
    let unit = unit_named(verified, name)?;
    Some(Lines {
        first: unit.place.line,
        last: unit.body.end.line,
    })
}

// The unit of a name.
fn unit_named<'v>(verified: &'v Verified, name: &str) -> Option<&'v Unit>
    ensures { option_copied result ≡ unit_named verified.now.config name.now }
{
    if verified.names().is_predeclared(name) {
        return None;
    }
    unit_in(verified.config().units.as_slice(), name)
}

// The first unit of a name.
fn unit_in<'v>(units: &'v [Unit], name: &str) -> Option<&'v Unit>
    ensures { option_copied result ≡ find (λ u. bytes_eq u.name.name name.now) units.now }
{
    units.iter().find(|unit| is_named(unit, name))
}

// Whether a unit has a name.
fn is_named(unit: &Unit, name: &str) -> bool
    ensures { result ≡ bytes_eq unit.now.name.name name.now }
{
    unit.name.name.as_str() == name
}

// The path of what an instruction of a body at a path runs.
fn path_in(alloc: Global, path: String, step: Option<&Step>) -> Result<String, AllocError>
    ensures { IfOk result (λ p. string_bytes p
        ≡ path_of_step (string_bytes path) (option_copied step.entry)) }
{
    let Some(step) = step else {
        return Ok(String::new(alloc));
    };
    match &step.instruction {
        Instruction::Call { instance, .. } => under(path, instance.name.as_str()),
        Instruction::Invoke { function, .. } => String::from_str(alloc, function.name.as_str()),
        _ => Ok(String::new(alloc)),
    }
}

/// A variable of the body at a path.
pub fn under(path: String, name: &str) -> Result<String, AllocError>
    ensures { IfOk result (λ p. string_bytes p ≡ under (string_bytes path) name.now) }
{
    let mut path = path;
    if !path.is_empty() {
        path.push_str(".")?;
    }
    path.push_str(name)?;
    Ok(path)
}
