// Which scan of a trace is shown.

ghost use Rattle.std.specs.Prelude.{◌≡◌};
ghost use Rattle.show_scan.specs.Chosen.{is_asked, committed, found_behind, noted, chosen};

use group_spec::trace::TraceEvent;
use trace_text::trace::Trace;

/// Lines of a text that follow one another, the last with them.
#[derive(Clone, Copy)]
pub struct Lines {
    pub first: u32,
    pub last: u32,
}

/// Which scan is asked for, and what of it.
#[derive(Clone, Copy)]
pub struct Asked {
    /// Its task: 0 is GROUP, k is CARk.
    pub task: u8,
    /// The round in which it was committed; none: the last one of the trace.
    pub round: Option<u32>,
    /// The lines of the unit whose instructions alone are shown; none: those of all units are.
    pub unit: Option<Lines>,
    /// The line before which nothing is shown; none: it was there already.
    pub from: Option<u32>,
    /// The line after which nothing more is shown.
    pub until: Option<u32>,
}

/// A scan of a trace.
#[derive(Clone, Copy)]
pub struct Chosen {
    /// How many events of the trace are up to its start, that with them.
    pub front: usize,
    /// The round of its commit.
    pub round: u32,
}

// What is known of the scans of a task so far.
#[derive(Clone, Copy)]
struct Search {
    round: u32,
    started: Option<usize>,
    found: Option<Chosen>,
}

// Whether a round is the one that is asked for; where none is, each.
fn is_asked(wanted: Option<u32>, round: u32) -> bool
    ensures { result ≡ is_asked wanted round }
{
    match wanted {
        None => true,
        Some(wanted) => wanted == round,
    }
}

// The scan that a commit ends, by how many events are up to its start; without one that has started since the last commit it ends none.
fn committed(started: Option<usize>, round: u32, found: Option<Chosen>) -> Option<Chosen>
    ensures { result ≡ committed started round found }
{
    match started {
        None => found,
        Some(front) => Some(Chosen { front, round }),
    }
}

// The last scan that is asked for, after a commit of its task.
fn found_behind(wanted: Option<u32>, search: Search) -> Option<Chosen>
    ensures { result ≡ found_behind wanted search }
{
    if is_asked(wanted, search.round) {
        committed(search.started, search.round, search.found)
    } else {
        search.found
    }
}

// What is known after an event, with which there are so many.
fn noted(asked: Asked, count: usize, event: &TraceEvent, search: Search) -> Search
    ensures { result ≡ noted asked count event.now search }
{
    match event {
        TraceEvent::Start(task) => {
            if *task == asked.task {
                Search {
                    started: Some(count),
                    ..search
                }
            } else {
                search
            }
        }
        TraceEvent::Commit(task) => {
            if *task == asked.task {
                Search {
                    started: None,
                    found: found_behind(asked.round, search),
                    ..search
                }
            } else {
                search
            }
        }
        TraceEvent::Refresh(_) => Search {
            round: search.round.saturating_add(1),
            ..search
        },
        _ => search,
    }
}

/// The last scan of a task that a trace commits, in the round that is asked for.
pub fn choose(asked: Asked, events: &Trace<'_>) -> Option<Chosen>
    ensures { result ≡ chosen asked events.now }
{
    let mut search = Search {
        round: 0,
        started: None,
        found: None,
    };
    let mut left = events.events();
    let mut count = 0;
    'events: while let Some(event) = left.next() {
        count += 1;
        search = noted(asked, count, &event, search);
    }
    search.found
}
