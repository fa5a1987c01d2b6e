// The globals that a program lists.

ghost use Rattle.std.specs.Prelude.{◌≡◌, ◌+◌, ◌<◌, ◌≤◌, All, length};
ghost use Rattle.scan_image.specs.Image.{filled};
ghost use Rattle.scan_task.specs.Sharing.{taken};
ghost use Rattle.scan_task.specs.Starting.{shared_value, listed_values};

use crate::rows::value;
use crate::sharing::Transfer;
use il_semantics::value::Value;
use load_slots::flat::Cell;
use scan_image::rows::put;
use scan_step::rows::Rows;

/// The globals that a program lists, in its order: their slots among all globals.
#[derive(Clone, Copy)]
pub struct Listed<'g> {
    pub cells: &'g [Cell],
    pub rows: &'g Rows,
    pub slots: &'g [usize],
}

// The value of a global; 0 where there is no such slot.
fn shared_value(rows: &Rows, cells: &[Cell], slot: usize) -> Value
    ensures { result ≡ shared_value cells.now rows.now slot }
{
    match value(rows, cells, slot) {
        Some(value) => value,
        None => Value::Integer(0),
    }
}

/// Writes what a program lists of the globals from a slot on.
pub fn write_listed(rows: &mut Rows, at: usize, listed: Listed<'_>)
    requires numbers { at + length listed.slots.now ≤ length rows.old.numbers }
    requires flags { at + length listed.slots.now ≤ length rows.old.flags }
    ensures { rows.new ≡ filled rows.old at (listed_values listed.entry) }
{
    let _room = rows.numbers.len();
    let mut place = at;
    'slots: for slot in listed.slots {
        put(rows, place, shared_value(listed.rows, listed.cells, *slot));
        place += 1;
    }
}

/// Takes the values of some globals from a task's rows.
pub fn take_written(globals: &mut Rows, rows: &Rows, cells: &[Cell], written: &[Transfer])
    requires numbers { All (λ t. t.to < length globals.old.numbers) written.now }
    requires flags { All (λ t. t.to < length globals.old.flags) written.now }
    ensures { globals.new ≡ taken globals.old rows.now cells.now written.now }
{
    'written: for transfer in written {
        put(
            globals,
            transfer.to,
            shared_value(rows, cells, transfer.from),
        );
    }
}
