// Parts of rows, and the variables that they hold.

ghost use Rattle.std.specs.Prelude.{◌≡◌, ◌+◌, ◌<◌, ◌≤◌, ◌++◌, IfOk, length, take, drop};
ghost use Rattle.base_maps.specs.NameMap.{get};
ghost use Rattle.load_slots.specs.Layout.{rows};
ghost use Rattle.scan_task.specs.Scanning.{value_at, variables_in, FitsOwn};

use crate::verified::Verified;
use il_semantics::value::Value;
use il_statics::elementary::declared_limits;
use load_code::FirstRows;
use load_slots::flat::Cell;
use scan_step::rows::Rows;
use std::alloc::{AllocError, Global};

// Copies a row to the front of another.
fn copy_to_front<T: Copy>(row: &mut [T], first: &[T])
    requires { length first.now ≤ length row.old }
    ensures { row.new ≡ first.now ++ drop (length first.now) row.old }
{
    let (front, _) = row.split_at_mut(first.len());
    front.copy_from_slice(first);
}

/// Rows of their own with these values.
pub(crate) fn copied(alloc: Global, first: &FirstRows) -> Result<Rows, AllocError>
    ensures { IfOk result (λ r. r ≡ first.now) }
{
    Rows::of(alloc, first.numbers(), first.flags())
}

/// Gives the first slots the values of others.
pub fn take_front(all: &mut Rows, first: &Rows)
    requires numbers { length first.now.numbers ≤ length all.old.numbers }
    requires flags { length first.now.flags ≤ length all.old.flags }
    ensures { all.new
        ≡ rows (first.now.numbers ++ drop (length first.now.numbers) all.old.numbers)
        (first.now.flags ++ drop (length first.now.flags) all.old.flags) }
{
    copy_to_front(all.numbers.as_mut_slice(), first.numbers.as_slice());
    copy_to_front(all.flags.as_mut_slice(), first.flags.as_slice());
}

/// Takes the first values of others.
pub fn copy_front(first: &mut Rows, all: &Rows)
    requires numbers { length first.old.numbers ≤ length all.now.numbers }
    requires flags { length first.old.flags ≤ length all.now.flags }
    ensures { first.new
        ≡ rows (take (length first.old.numbers) all.now.numbers)
        (take (length first.old.flags) all.now.flags) }
{
    let (numbers, _) = all.numbers.split_at(first.numbers.len());
    let (flags, _) = all.flags.split_at(first.flags.len());
    first.numbers.as_mut_slice().copy_from_slice(numbers);
    first.flags.as_mut_slice().copy_from_slice(flags);
}

/// The value at a slot of these cells, if the rows reach so far.
pub(crate) fn value(all: &Rows, cells: &[Cell], slot: usize) -> Option<Value>
    ensures { result ≡ value_at cells.now all.now slot }
{
    let cell = cells.get(slot)?;
    let number = *all.numbers.get(slot)?;
    let flag = *all.flags.get(slot)?;
    match declared_limits(cell.scalar) {
        None => Some(Value::Boolean(flag)),
        Some(_) => Some(Value::Integer(number)),
    }
}

/// The value of a variable of a task, by its path.
pub fn variable(variables: &Rows, verified: &Verified, task: u8, path: &str) -> Option<Value>
    requires fits { FitsOwn verified.now.config task variables.now }
    ensures { result ≡ get (variables_in verified.now.config task variables.now) path.now }
{
    let code = verified.task_code(task);
    let slot = code.slot_of(path)?;
    value(variables, code.cells(), slot)
}
