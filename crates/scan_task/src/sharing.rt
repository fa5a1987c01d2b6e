// The slots of what a task shares of the globals.

ghost use Rattle.std.specs.Prelude.{◌≡◌, ◌≤◌, map, drop, length, IfOk};
ghost use Rattle.scan_task.specs.Sharing.{image_count, between, slot_in, base_name, stores_cell, transfer, transfers};

use base_lists::Items;
use group_spec::image::Sizes;
use load_code::TaskCode;
use load_scope::UnitScope;
use load_slots::flat::Cell;
use scan_image::image::CAR_VALUES;
use std::alloc::{AllocError, Global};

/// Where the value of a global comes from at the end of a scan: a task's slot, and the slot among the globals.
#[derive(Clone, Copy)]
pub struct Transfer {
    pub from: usize,
    pub to: usize,
}

/// How many slots of the image a task sees.
pub fn image_count(sizes: Sizes, task: u8) -> usize
    ensures { result ≡ image_count sizes task }
{
    let common = 6 + 4 * (sizes.slots as usize);
    if task == 0 {
        common + (2 * (sizes.cars as usize) + (sizes.slots as usize))
    } else {
        common + CAR_VALUES
    }
}

/// The cells after the first ones and before the last ones.
pub fn between(cells: &[Cell], first: usize, last: usize) -> &[Cell]
    requires first { first ≤ length cells.now }
    requires last { last ≤ length (drop first cells.now) }
    ensures { result.now ≡ between first last cells.now }
{
    let (_, behind) = cells.split_at(first);
    let (some, _) = behind.split_at(behind.len() - last);
    some
}

// The slot that a cell's variable has in a layout; 0 where it has none.
fn slot_in(layout: &TaskCode, cell: &Cell) -> usize
    ensures { result ≡ slot_in layout.now.cells cell.now }
{
    match layout.slot_of(cell.path.as_str()) {
        Some(slot) => slot,
        None => 0,
    }
}

/// The slots that the variables of cells have in a layout.
pub fn slots_in(
    alloc: Global,
    layout: &TaskCode,
    cells: &[Cell],
) -> Result<Items<usize>, AllocError>
    ensures { IfOk result (λ slots. slots ≡ map (slot_in layout.now.cells) cells.now) }
{
    let mut slots = Items::new(alloc);
    'cells: for cell in cells {
        slots.push(slot_in(layout, cell))?;
    }
    Ok(slots)
}

// The name of the variable of a path: what comes before the index.
fn base_name(path: &str) -> &str
    ensures { result.now ≡ base_name path.now }
{
    match path.split_once('[') {
        Some((name, _)) => name,
        None => path,
    }
}

// Whether a unit's body stores into the variable of a cell.
fn stores_cell(scope: &UnitScope, cell: &Cell) -> bool
    ensures { result ≡ stores_cell scope.now.unit.body.steps cell.now }
{
    scope.stores(base_name(cell.path.as_str()))
}

/// The transfers of what a unit's body stores into, of some variables, from a task's layout to that of the globals.
pub fn transfers(
    alloc: Global,
    scope: &UnitScope,
    layout: &TaskCode,
    globals: &TaskCode,
    cells: &[Cell],
) -> Result<Items<Transfer>, AllocError>
    ensures { IfOk result
        (λ ts. ts ≡ transfers scope.now.unit.body.steps layout.now.cells globals.now.cells
        cells.now) }
{
    let mut list = Items::new(alloc);
    'cells: for cell in cells {
        if stores_cell(scope, cell) {
            list.push(Transfer {
                from: slot_in(layout, cell),
                to: slot_in(globals, cell),
            })?;
        }
    }
    Ok(list)
}
