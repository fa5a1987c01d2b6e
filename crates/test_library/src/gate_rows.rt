// Workers run at once: a gate holds each of two cars until the other has got on.

use crate::texts::TWO_IDLE;
use group_spec::journal::Entry;
use load_text::load;
use std::alloc::Global;
use std::sync::Wait;
use std::sync::atomic::{AtomicBool, Ordering};
use std::thread;
use std::thread::Threads;
use std::time::{Clock, Duration};
use threads_workers::gate::{Gate, Together};
use threads_workers::run::{Plan, run};

// How often a held worker looks whether the other has got on, and how many milliseconds it sleeps between.
const TURNS: u32 = 1000;

const TURN: u64 = 10;

// Holds car 2 after its first start until car 1 has started, and car 1 until car 2 has committed; once one has waited for so many turns,
// it holds nobody.
#[derive(Drop)]
struct HoldsCars<'c, C: Clock + Sync> {
    clock: &'c C,
    has_car_1_started: AtomicBool,
    has_car_2_committed: AtomicBool,
    has_waited_too_long: AtomicBool,
}

impl<'c, C: Clock + Sync> Gate for HoldsCars<'c, C> {
    fn begins(&self, _rt: &impl Wait, _task: u8, _round: u16) {}

    fn started(&self, _rt: &impl Wait, task: u8) {
        if task == 1 {
            self.has_car_1_started.store(true, Ordering::SeqCst);
        }
        for _turn in 0..TURNS {
            let may_go_on = if task == 1 {
                self.has_car_2_committed.load(Ordering::SeqCst)
            } else {
                self.has_car_1_started.load(Ordering::SeqCst)
            };
            if may_go_on || self.has_waited_too_long.load(Ordering::SeqCst) {
                return;
            }
            thread::sleep(self.clock, Duration::from_millis(TURN));
        }
        self.has_waited_too_long.store(true, Ordering::SeqCst);
    }

    fn committed(&self, _rt: &impl Wait, task: u8) {
        if task == 2 {
            self.has_car_2_committed.store(true, Ordering::SeqCst);
        }
    }

    fn refreshed(&self, _rt: &impl Wait, _round: u16) {}

    fn gives_up(&self, _rt: &impl Wait) {}
}

// The journal of so many rounds of two cars under a gate.
fn journal_under<T: Gate + Sync, R: Threads + Wait + Sync>(
    rt: &R,
    alloc: Global,
    gate: &T,
    rounds: u16,
) -> Option<Vec<Entry>> {
    let Ok(verified) = load(alloc, TWO_IDLE) else {
        return None;
    };
    let plan = Plan {
        presses: &[],
        rounds,
        settings: &[],
    };
    match run(rt, alloc, verified, gate, plan) {
        Ok(ran) => Some(ran.journal),
        Err(_) => None,
    }
}

// Whether the journal of so many rounds under a gate has so many entries.
fn has_entries<T: Gate + Sync, R: Threads + Wait + Sync>(
    rt: &R,
    alloc: Global,
    gate: &T,
    rounds: u16,
    entries: usize,
) -> bool {
    matches!(journal_under(rt, alloc, gate, rounds), Some(journal) if journal.len() == entries)
}

// Refuses all tasks in turn on one thread.
#[test]
fn cars_run_at_once(rt: HostRuntime) {
    let gate = HoldsCars {
        clock: &rt,
        has_car_1_started: AtomicBool::new(false),
        has_car_2_committed: AtomicBool::new(false),
        has_waited_too_long: AtomicBool::new(false),
    };
    assert!(rt; has_entries(&rt, rt.alloc(), &gate, 3, 15));
    assert!(rt; gate.has_car_2_committed.load(Ordering::SeqCst));
    assert!(rt; !gate.has_waited_too_long.load(Ordering::SeqCst));
}

// Whether entries are a refresh, and then a start and a commit of each of two cars.
fn is_round(entries: &[Entry]) -> bool {
    let [Entry::Refresh { .. }, behind @ ..] = entries else {
        return false;
    };
    has_scanned(behind, 1) && has_scanned(behind, 2)
}

// Whether a task was started and committed in the entries, once.
fn has_scanned(entries: &[Entry], task: u8) -> bool {
    let mut starts = 0u8;
    let mut commits = 0u8;
    for entry in entries {
        match entry {
            Entry::Start(other) if *other == task => starts = starts.saturating_add(1),
            Entry::Commit(other) if *other == task => commits = commits.saturating_add(1),
            _ => {}
        }
    }
    starts == 1 && commits == 1
}

// Whether a journal is of so many entries, and each five of them are a round.
fn has_rounds(journal: &[Entry], entries: usize) -> bool {
    for round in journal.chunks(5) {
        if !is_round(round) {
            return false;
        }
    }
    journal.len() == entries
}

#[test]
fn together_a_round_ends_for_all_before_the_next_begins(rt: HostRuntime) {
    let Some(journal) = journal_under(&rt, rt.alloc(), &Together::new(2), 20) else {
        panic!(&rt; "no memory")
    };
    assert!(rt; has_rounds(journal.as_slice(), 100));
}
