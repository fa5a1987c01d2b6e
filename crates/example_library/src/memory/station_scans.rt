// The scans at a station.

ghost use Rattle.std.specs.Prelude.{◌≡◌};

use group_journal::fault::StationFault;
use group_spec::report::Report;
use scan_task::{OpenScan, Scanned, scan};
use std::sync::Wait;
use threads_station::{Naming, Ours, Station, TaskPass};

// The number of the fault that refused a commit, 0 for none.
fn fault(committed: Result<(), (StationFault, Scanned<'_>)>) -> u8 {
    match committed {
        Ok(()) => 0,
        Err((fault, scanned)) => {
            let _store = scanned.into_store();
            fault.number()
        }
    }
}

// A scan that has begun runs, and is committed.
fn run<G: Naming, R: Wait>(
    rt: &R,
    station: &Station<G>,
    pass: TaskPass<G>,
    begun: OpenScan,
    report: &mut Report,
) -> (TaskPass<G>, u8)
    requires { begun.config ≡ G.program.config }
{
    let scanned = scan(station.verified(), begun);
    let (pass, committed) = station.commit(rt, pass, scanned, report);
    (pass, fault(committed))
}

// The number of the fault that refused a commit of a scan of the station's program, 0 for none.
fn fault_of_ours<G: Naming>(committed: Result<(), (StationFault, Ours<'_, G>)>) -> u8 {
    match committed {
        Ok(()) => 0,
        Err((fault, _ours)) => fault.number(),
    }
}

// A scan that has begun runs and turns into the task's next one, which runs and is committed: the number of the fault of the turn's commit,
// of its start, or of the commit; 0 for none.
fn turn<G: Naming, R: Wait>(
    rt: &R,
    station: &Station<G>,
    pass: TaskPass<G>,
    begun: OpenScan,
    report: &mut Report,
) -> (TaskPass<G>, u8)
    requires { begun.config ≡ G.program.config }
{
    let (pass, turned) = station.turn(rt, pass, station.scan(begun), report);
    match turned {
        Ok(Ok(begun)) => {
            let (pass, committed) = station.commit_ours(rt, pass, station.scan(begun), report);
            (pass, fault_of_ours(committed))
        }
        Ok(Err(fault)) => (pass, fault.number()),
        Err((fault, _ours)) => (pass, fault.number()),
    }
}

// A scan of a task begins, and is committed or turns into another: the number of the fault that refused one, 0 for none.
fn drive<G: Naming, R: Wait>(
    rt: &R,
    station: &Station<G>,
    pass: TaskPass<G>,
    turns: bool,
    report: &mut Report,
) -> (TaskPass<G>, u8) {
    let (pass, begun) = station.start(rt, pass);
    match begun {
        Ok(begun) => {
            if turns {
                turn(rt, station, pass, begun, report)
            } else {
                run(rt, station, pass, begun, report)
            }
        }
        Err(fault) => (pass, fault.number()),
    }
}

/// The next task's scan, or its two scans where the first turns into another, and the car that is then told the call under ticket 1. The
/// pass goes to the end.
pub fn next<G: Naming, R: Wait>(
    rt: &R,
    station: &Station<G>,
    passes: &mut Vec<TaskPass<G>>,
    turns: bool,
    report: &mut Report,
) -> [i128; 2] {
    if passes.is_empty() {
        return [-1, -1];
    }
    let pass = passes.remove(0);
    let (pass, fault) = drive(rt, station, pass, turns, report);
    passes.push_reserved(pass);
    let told = station.told(rt, 1).unwrap_or(0);
    [fault as i128, told as i128]
}
