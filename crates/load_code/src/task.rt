// The slots of tasks.

ghost use Rattle.std.specs.Prelude.{◌≡◌, Some, option_map, codes, IfOk, IfSome};
ghost use Rattle.base_maps.specs.NameMap as map;
ghost use Rattle.load_slots.specs.Flattened.{place_or_zero};
ghost use Rattle.load_code.specs.Laying.{laid_task};
ghost use Rattle.load_slots.specs.Layout.{AreOnce};
ghost use Rattle.load_slots.specs.Paths.{slot_at, path_at};

use crate::laying::Opening;
use crate::rows::FirstRows;
use crate::slots::{cells_of, index_of};
use base_lists::Items;
use base_maps::Table;
use load_slots::flat::Cell;
use std::alloc::{AllocError, Global};
use std::marker::Model;

/// The slots of the task of a PROGRAM line: the frames of the functions that its program uses, each once; the program's own variables;
/// and after them what a scan is given, its externals and the image.
#[derive(Drop)]
pub struct TaskCode {
    cells: Items<Cell>,
    paths: Table<usize>,
    own: usize,
    bases: Items<usize>,
    clock: usize,
    first: FirstRows,
}

impl Model for TaskCode {
    ghost use Rattle.load_code.specs.Tasks.{TaskLayout, layout_code, AreIndexed};

    ghost Value = { TaskLayout };

    ghost coded = { layout_code };

    ghost view = { λ t. record { cells = t.cells; own = t.own; bases = t.bases; clock = t.clock; first = t.first } };

    ghost invariant = { λ t. AreIndexed t.paths t.cells };
}

// The slot of NOW.
fn clock_of(paths: &Table<usize>) -> usize
    ensures { result ≡ place_or_zero (map.get paths.now (codes "NOW")) }
{
    match paths.get("NOW") {
        Some(slot) => slot,
        None => 0,
    }
}

impl TaskCode {
    /// A task with these slots: those that stay, and what a scan is given.
    pub(crate) fn of(
        alloc: Global,
        own: &[Opening],
        seen: &[Opening],
        bases: Items<usize>,
    ) -> Result<TaskCode, AllocError>
        ensures { IfOk result (λ t. t ≡ laid_task own.now seen.now bases) }
    {
        let first = FirstRows::of(alloc, own)?;
        let cells = cells_of(alloc, own, seen)?;
        let paths = index_of(alloc, cells.as_slice())?;
        let clock = clock_of(&paths);
        Ok(TaskCode {
            cells,
            paths,
            own: own.len(),
            bases,
            clock,
            first,
        })
    }

    /// What each slot keeps: the variable of a path, of a scalar type.
    pub fn cells(&self) -> &[Cell]
        ensures { result.now ≡ self.now.cells }
    {
        self.cells.as_slice()
    }

    /// How many slots stay from one scan to the next; they are first.
    pub fn own(&self) -> usize
        ensures { result ≡ self.now.own }
    {
        self.own
    }

    /// The base of the frame of each unit, by the units' numbers.
    pub fn bases(&self) -> &[usize]
        ensures { result.now ≡ self.now.bases }
    {
        self.bases.as_slice()
    }

    /// The slot of NOW.
    pub fn clock(&self) -> usize
        ensures { result ≡ self.now.clock }
    {
        self.clock
    }

    /// The slot of a path, if a variable has it.
    pub fn slot_of(&self, path: &str) -> Option<usize>
        ensures slot { result ≡ slot_at self.now.cells path.now }
        ensures back { IfSome result (λ slot. path_at self.now.cells slot ≡ Some path.now) }
    {
        self.paths.get(path)
    }

    /// The path of a slot, if there is one. No two slots of a task have one path, nor two of the globals.
    pub fn name_of(&self, slot: usize) -> Option<&str>
        ensures path { option_map (λ s. s.now) result ≡ path_at self.now.cells slot }
        ensures back { AreOnce self.now.cells → IfSome result
            (λ path. slot_at self.now.cells path.now ≡ Some slot) }
    {
        match self.cells.as_slice().get(slot) {
            Some(cell) => Some(cell.path.as_str()),
            None => None,
        }
    }

    /// The values with which the slots begin that stay.
    pub fn initial(&self) -> &FirstRows
        ensures { result.now ≡ self.now.first }
    {
        &self.first
    }
}
