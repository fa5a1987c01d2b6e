// The calls of a station.

ghost use Rattle.std.specs.Prelude.{◌≡◌, ℕ, slice_index_or};
ghost use Rattle.group_plant.specs.Switches.{opening_switches};
ghost use Rattle.group_spec.specs.Image.{sizes_of};

use crate::memory::lines::{allocation, no_allocation, print};
use crate::memory::station_scans::next;
use crate::memory::text::{FLOORS, TEXT};
use group_plant::switches::Switches;
use group_spec::report::Report;
use il_syntax::fault::Refusal;
use load_text::load;
use scan_task::Verified;
use std::alloc::Global;
use std::io::Print;
use std::marker::Brand;
use std::sync::Wait;
use threads_desk::HandPass;
use threads_station::{Blanks, Closed, Naming, RefreshPass, Station, TaskPass};

// How many entries the journal has room for: those of two refreshes and of six scans.
const ENTRIES: usize = 14;

// A refresh by the plant, and one with the fields that the image then has: whether they are done, and how many calls are left in the hand.
fn refresh<G: Naming, R: Wait>(
    rt: &R,
    station: &Station<G>,
    pass: RefreshPass<G>,
    collector: HandPass,
    report: &mut Report,
) -> (RefreshPass<G>, HandPass, [i128; 3])
    requires floors { collector.floors ≡ (sizes_of G.program.config).floors }
    requires switches { (i : ℕ)
        → opening_switches (sizes_of G.program.config).cars ≡ G.switches i }
    ensures { (result.1.table ≡ collector.table) × (result.1.floors ≡ collector.floors) }
{
    let switches = Switches::opening(station.verified().sizes().cars);
    let (pass, collector, driven) = station.drive(rt, pass, switches, collector, report);
    let (pass, image) = station.outputs(rt, pass);
    let fields = image.fields.copied();
    let (pass, collector, refreshed) = station.refresh(rt, pass, fields, collector, report);
    let left = collector.hand().len();
    let answers = [
        driven.is_ok() as i128,
        refreshed.is_ok() as i128,
        left as i128,
    ];
    (pass, collector, answers)
}

// What a closed station leaves: how many entries.
fn close<G: Naming>(station: Station<G>, passes: Vec<TaskPass<G>>, pass: RefreshPass<G>) -> usize {
    let Closed { verified, book } = station.close(passes, pass);
    let entries = book.journal().len();
    verified.release();
    book.release();
    entries
}

// Two scans of the first task, one of each task, one of the first that finds the journal full after its commit, and one that finds it full.
fn scans<G: Naming, R: Print + Wait>(
    rt: &R,
    station: &Station<G>,
    passes: &mut Vec<TaskPass<G>>,
    report: &mut Report,
) {
    for turns in &[true, false, false, false, true, false] {
        let calls = if *turns {
            "Station::start, scan, turn and commit_ours, told"
        } else {
            "Station::start and commit, told"
        };
        print(rt, calls, &next(rt, station, passes, *turns, report));
    }
}

// Two refreshes, the scans, what reads the station, and its close. The collector's pass comes back.
fn used<G: Naming, R: Print + Wait>(
    rt: &R,
    station: Station<G>,
    passes: Vec<TaskPass<G>>,
    pass: RefreshPass<G>,
    collector: HandPass,
    report: &mut Report,
) -> HandPass
    requires floors { collector.floors ≡ (sizes_of G.program.config).floors }
    requires switches { (i : ℕ)
        → opening_switches (sizes_of G.program.config).cars ≡ G.switches i }
    ensures { (result.table ≡ collector.table) × (result.floors ≡ collector.floors) }
{
    let mut passes = passes;
    no_allocation(rt);
    let (pass, collector, answers) = refresh(rt, &station, pass, collector, report);
    print(rt, "Station::drive, refresh, HandPass::hand", &answers);
    scans(rt, &station, &mut passes, report);
    let cars = station.verified().sizes().cars;
    let entries = close(station, passes, pass);
    print(
        rt,
        "Station::verified, close",
        &[cars as i128, entries as i128],
    );
    allocation(rt);
    collector
}

// The station of a program, and each of its calls. The collector's pass comes back.
fn in_station<G: Naming, R: Print + Wait>(
    rt: &R,
    alloc: Global,
    blanks: Blanks,
    verified: Verified,
    collector: HandPass,
    report: &mut Report,
) -> (HandPass, Result<(), Refusal>)
    requires program { verified ≡ G.program }
    requires names { (i : ℕ) → slice_index_or blanks.ledgers i 0 ≡ G.names i }
    requires tally { blanks.tally ≡ G.tally }
    requires switches { (i : ℕ)
        → opening_switches (sizes_of G.program.config).cars ≡ G.switches i }
    requires floors { collector.floors ≡ (sizes_of G.program.config).floors }
    ensures { (result.0.table ≡ collector.table) × (result.0.floors ≡ collector.floors) }
{
    match Station::<G>::new(alloc, blanks, verified, ENTRIES) {
        Err(refusal) => (collector, Err(refusal)),
        Ok((station, passes, pass)) => {
            let collector = used(rt, station, passes, pass, collector, report);
            (collector, Ok(()))
        }
    }
}

// The station of a program with as many floors as the collector has, and each of its calls.
fn over<R: Print + Wait>(
    rt: &R,
    alloc: Global,
    verified: Verified,
    collector: HandPass,
    report: &mut Report,
) -> (HandPass, Result<(), Refusal>)
    requires { collector.floors ≡ FLOORS }
    ensures { (result.0.table ≡ collector.table) × (result.0.floors ≡ collector.floors) }
{
    if verified.sizes().floors != FLOORS {
        verified.release();
        return (collector, Ok(()));
    }
    match Blanks::new(alloc) {
        Ok(blanks) => in_station::<Brand, R>(rt, alloc, blanks, verified, collector, report),
        Err(_) => {
            verified.release();
            (collector, Err(Refusal::Memory))
        }
    }
}

// The station of the program of the text, and each of its calls.
fn once<R: Print + Wait>(
    rt: &R,
    alloc: Global,
    collector: HandPass,
    report: &mut Report,
) -> (HandPass, Result<(), Refusal>)
    requires { collector.floors ≡ FLOORS }
    ensures { (result.0.table ≡ collector.table) × (result.0.floors ≡ collector.floors) }
{
    match load(alloc, TEXT) {
        Ok(verified) => over(rt, alloc, verified, collector, report),
        Err(refusal) => (collector, Err(refusal)),
    }
}

/// The station and each of its calls. What is refused memory is done once more: a station that is refused takes its program with it.
pub fn all<R: Print + Wait>(
    rt: &R,
    alloc: Global,
    collector: HandPass,
    report: &mut Report,
) -> (HandPass, Result<(), Refusal>)
    requires { collector.floors ≡ FLOORS }
    ensures { (result.0.table ≡ collector.table) × (result.0.floors ≡ collector.floors) }
{
    let (collector, done) = once(rt, alloc, collector, report);
    if done.is_ok() {
        return (collector, done);
    }
    once(rt, alloc, collector, report)
}
