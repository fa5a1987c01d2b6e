// The slots of a task, and the slot of each path.

ghost use Rattle.std.specs.Prelude.{◌≡◌, ◌++◌, map, IfOk, OnOk};
ghost use Rattle.load_code.specs.Laying.{cell_of};
ghost use Rattle.load_code.specs.Tasks.{AreIndexed};

use crate::laying::Opening;
use base_lists::Items;
use base_maps::Table;
use il_syntax::name::Name;
use load_slots::flat::Cell;
use std::alloc::{AllocError, Global};

/// The slot of each path.
pub fn index_of(alloc: Global, cells: &[Cell]) -> Result<Table<usize>, AllocError>
    ensures { IfOk result (λ t. AreIndexed t cells.now) }
{
    let mut table = Table::new(alloc);
    for slot in 0..cells.len() {
        table.put_new(alloc, cells[slot].path.as_str(), slot)?;
    }
    Ok(table)
}

// What a slot keeps.
fn cell_of(alloc: Global, opening: &Opening) -> Result<Cell, AllocError>
    ensures { IfOk result (λ c. c ≡ cell_of opening.now) }
{
    Ok(Cell {
        path: Name::of(alloc, opening.path.as_str())?,
        scalar: opening.scalar,
    })
}

// Adds slots.
fn add_cells(alloc: Global, cells: &mut Items<Cell>, openings: &[Opening]) -> Result<(), AllocError>
    ensures { OnOk result (cells.new ≡ cells.old ++ map cell_of openings.now) }
{
    for opening in openings {
        cells.push(cell_of(alloc, opening)?)?;
    }
    Ok(())
}

/// Slots that stay from one scan to the next, and after them others.
pub fn cells_of(alloc: Global, own: &[Opening], seen: &[Opening]) -> Result<Items<Cell>, AllocError>
    ensures { IfOk result (λ cs. cs ≡ map cell_of own.now ++ map cell_of seen.now) }
{
    let mut cells = Items::new(alloc);
    add_cells(alloc, &mut cells, own)?;
    add_cells(alloc, &mut cells, seen)?;
    Ok(cells)
}
