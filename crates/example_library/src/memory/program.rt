// A program, what reads it, and the calls that borrow it.

ghost use Rattle.std.specs.Prelude.{◌≡◌, ◌≤◌, true};
ghost use Rattle.scan_task.specs.Scanning.{HasTask};

use crate::memory::lines::{allocation, no_allocation, print};
use crate::memory::text::TEXT;
use crate::memory::{book, group, scans};
use group_spec::report::Report;
use il_syntax::fault::Refusal;
use load_text::load;
use scan_task::{Value, Verified};
use std::alloc::{AllocError, Global};
use std::io::Print;

/// The whole number of a value, -1 where there is none.
pub fn number(value: Option<Value>) -> i128 {
    match value {
        Some(Value::Integer(number)) => number as i128,
        _ => -1,
    }
}

// The program of the text.
fn loaded(alloc: Global) -> Result<Verified, Refusal> {
    match load(alloc, TEXT) {
        Ok(verified) => Ok(verified),
        Err(_) => load(alloc, TEXT),
    }
}

// What reads it; of the units and of the tasks the first one's cost.
fn readings(verified: &Verified) -> [i128; 7] {
    let opening = verified.opening_globals().numbers();
    let cost = match verified.units().next() {
        Some(unit) => unit.cost,
        None => 0,
    };
    let budget = match verified.tasks().next() {
        Some(task) => task.budget,
        None => 0,
    };
    [
        verified.config().floors.value as i128,
        verified.sizes().cars as i128,
        verified.has_task(2) as i128,
        verified.globals().len() as i128,
        opening.len() as i128,
        cost as i128,
        budget as i128,
    ]
}

// Whether the group has the task of a number.
fn has_task(verified: &Verified, task: u8) -> bool
    requires { task ≤ 8 }
    ensures { result ≡ true → HasTask verified.now.config task }
{
    let _config = verified.config();
    task <= verified.sizes().cars && verified.has_task(task)
}

// The calls of car 1. What is refused memory is done once more.
fn of_car<R: Print>(
    rt: &R,
    alloc: Global,
    verified: &Verified,
    report: &mut Report,
) -> Result<(), AllocError>
    requires { HasTask verified.now.config 1 }
{
    if group::all(rt, alloc, verified, report).is_err() {
        group::all(rt, alloc, verified, report)?;
    }
    if book::all(rt, alloc, verified, report).is_err() {
        book::all(rt, alloc, verified, report)?;
    }
    Ok(())
}

// The calls over the program, which has the tasks GROUP and CAR1.
fn over<R: Print>(
    rt: &R,
    alloc: Global,
    verified: &Verified,
    report: &mut Report,
) -> Result<(), AllocError> {
    no_allocation(rt);
    print(
        rt,
        "Verified::config, sizes, has_task, globals, opening_globals, units, tasks",
        &readings(verified),
    );
    allocation(rt);
    if has_task(verified, 0) && scans::of_group(rt, alloc, verified).is_err() {
        scans::of_group(rt, alloc, verified)?;
    }
    if has_task(verified, 1) {
        return of_car(rt, alloc, verified, report);
    }
    Ok(())
}

/// Each call.
pub fn all<R: Print>(rt: &R, alloc: Global, report: &mut Report) -> Result<(), Refusal> {
    let verified = loaded(alloc)?;
    let done = over(rt, alloc, &verified, report);
    verified.release();
    Ok(done?)
}
