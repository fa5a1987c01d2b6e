// Calls of the library where memory is refused. Calls that take memory and are refused it are made once more; calls that take none are
// between two lines, and `tools/sweep` has all memory refused from the one to the other.

mod book;
mod calls;
mod desk;
mod group;
mod interlock;
mod lines;
mod numbers;
mod program;
mod scans;
mod station;
mod station_scans;
mod text;
mod trace;
mod world;

use crate::memory::lines::{allocation, no_allocation, print};
use group_spec::report::Report;
use il_syntax::fault::Refusal;
use std::alloc::Global;
use std::io;
use std::io::Print;
use std::sync::Wait;

// The calls of values.
fn of_values<R: Print>(rt: &R) {
    no_allocation(rt);
    print(
        rt,
        "Interval::add, sub, mul, div, mod_, abs, min, max, limit, join, within, narrow",
        &numbers::ranges(),
    );
    print(rt, "sr, rs, r_trig, f_trig", &numbers::flags());
    print(rt, "ctu, ctd, ctud", &numbers::counters());
    print(rt, "ton, tof, tp", &numbers::timers());
    print(rt, "CallBook::enter, tell, serve", &calls::changes());
    print(
        rt,
        "CallBook::count, slot, slots, last_ticket, copied",
        &calls::readings(),
    );
    print(
        rt,
        "Hand::move_from, take_first, len, is_empty, has, has_from, mask_from, first",
        &calls::of_sets(),
    );
    print(
        rt,
        "settle_car, settle_all, in_range, is_floor, plant_step, Plant::cars",
        &interlock::answers(),
    );
    allocation(rt);
}

/// All calls. What is refused memory is done once more.
pub fn call_all<R: Print + Wait>(rt: &R, alloc: Global) -> io::Result<()> {
    if run(rt, alloc, &mut Report::new()).is_err() {
        return Err(io::ErrorKind::Other.into());
    }
    Ok(())
}

fn run<R: Print + Wait>(rt: &R, alloc: Global, report: &mut Report) -> Result<(), Refusal> {
    of_values(rt);
    program::all(rt, alloc, report)?;
    if world::all(rt, alloc, report).is_err() {
        world::all(rt, alloc, report)?;
    }
    if desk::all(rt, alloc, report).is_err() {
        desk::all(rt, alloc, report)?;
    }
    Ok(())
}
