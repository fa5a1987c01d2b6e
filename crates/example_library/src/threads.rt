// A caller with two cars in threads of their own, over one station: each runs a hundred scans of its program while the other does.

ghost use Rattle.std.specs.Prelude.{◌≡◌, ◌+◌, ℕ, IfOk, slice_index_or};
ghost use Rattle.group_journal.specs.Pages.{Kept};

use group_spec::report::Report;
use il_syntax::fault::Refusal;
use load_text::load;
use scan_task::Verified;
use std::alloc::{AllocError, Global};
use std::marker::Brand;
use std::sync::Wait;
use std::thread::{Threads, join};
use threads_station::{Blanks, Closed, Naming, Station, TaskPass};

// How many scans each car runs.
const SCANS: u32 = 100;

// Two entries for each scan of both cars.
const ENTRIES: usize = 400;

// Runs the scans of one car, until one is refused.
fn drive<G: Naming, R: Wait>(rt: &R, station: &Station<G>, pass: TaskPass<G>) -> TaskPass<G> {
    let mut pass = pass;
    let mut report = Report::new();
    for _scan in 0..SCANS {
        let (back, begun) = station.start(rt, pass);
        pass = back;
        let Ok(begun) = begun else {
            return pass;
        };
        let (back, committed) = station.commit_ours(rt, pass, station.scan(begun), &mut report);
        pass = back;
        if committed.is_err() {
            return pass;
        }
    }
    pass
}

// Runs both cars, each in a thread of its own: the passes that come back.
fn drive_both<G: Naming + Send + Sync, R: Threads + Wait + Sync>(
    rt: &R,
    alloc: Global,
    station: &Station<G>,
    passes: Vec<TaskPass<G>>,
) -> Result<Vec<TaskPass<G>>, AllocError> {
    let mut passes = passes;
    let (Some(second), Some(first)) = (passes.pop(), passes.pop()) else {
        return Ok(passes);
    };
    let (first, second) = join(
        rt,
        || drive(rt, station, first),
        || drive(rt, station, second),
    );
    Ok(Vec::from_array(alloc, [first, second])?)
}

// Opens the station of a program, runs both cars and closes it. Whatever the threads did, the journal runs to the image that is left.
fn run_in<G: Naming + Send + Sync, R: Threads + Wait + Sync>(
    rt: &R,
    alloc: Global,
    blanks: Blanks,
    verified: Verified,
) -> Result<Closed, Refusal>
    requires program { verified ≡ G.program }
    requires names { (i : ℕ) → slice_index_or blanks.ledgers i 0 ≡ G.names i }
    requires tally { blanks.tally ≡ G.tally }
    ensures { IfOk result (λ c. Kept c.book) }
{
    let (station, passes, refresher) = Station::<G>::new(alloc, blanks, verified, ENTRIES)?;
    match drive_both(rt, alloc, &station, passes) {
        Ok(passes) => Ok(station.close(passes, refresher)),
        Err(_) => {
            station.release();
            Err(Refusal::Memory)
        }
    }
}

/// Runs both cars of a text.
pub fn run<R: Threads + Wait + Sync>(rt: &R, alloc: Global, text: &[u8]) -> Result<Closed, Refusal>
    ensures { IfOk result (λ c. Kept c.book) }
{
    let blanks = Blanks::new(alloc)?;
    let verified = load(alloc, text)?;
    run_in::<Brand, R>(rt, alloc, blanks, verified)
}
