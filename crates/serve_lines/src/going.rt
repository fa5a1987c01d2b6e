// Where a group goes on that a trace tells of.

ghost use Rattle.std.specs.Prelude.{◌≡◌, ◌≤◌, length, slice_set, IfOk, IfErr};
ghost use Rattle.group_journal.specs.Closed.{IsClosed};
ghost use Rattle.serve_lines.specs.Going.{GoesOn, IsBroken, whole_events, last_task, ends_line, are_shut, opened};

use group_rounds::replay::{Refused, replay_first};
use group_spec::trace::TraceEvent;
use group_world::World;
use trace_text::trace::Trace;

// A place for each number of a task.
const TASKS: usize = 9;

// Whose scans are open after an event.
fn put_open(marks: &mut [bool], event: &TraceEvent)
    ensures { marks.new ≡ opened marks.old event.now }
{
    match event {
        TraceEvent::Start(task) => put(marks, *task, true),
        TraceEvent::Commit(task) => put(marks, *task, false),
        TraceEvent::Press(_) | TraceEvent::Gather(_) | TraceEvent::Refresh(_) => {}
    }
}

fn put(marks: &mut [bool], task: u8, now: bool)
    ensures { marks.new ≡ slice_set marks.old task now }
{
    let place = usize::from(task);
    if place < marks.len() {
        marks[place] = now;
    }
}

// Whether no scan is open.
fn are_shut(marks: &[bool]) -> bool
    ensures { result ≡ are_shut marks.now }
{
    'marks: for mark in marks {
        if *mark {
            return false;
        }
    }
    true
}

// Whether a line of `serve` may end with an event, where this is the last task of a round.
fn ends_line(last: u8, event: &TraceEvent) -> bool
    ensures { result ≡ ends_line last event.now }
{
    match event {
        TraceEvent::Press(_) => true,
        TraceEvent::Commit(task) => *task == last,
        TraceEvent::Start(_) | TraceEvent::Gather(_) | TraceEvent::Refresh(_) => false,
    }
}

/// How many of the events of a trace are in whole lines: those up to the last press, or commit of the last task, after which no
/// scan is open (own rule).
pub fn whole_events(events: &Trace<'_>, last: u8) -> usize
    ensures whole { result ≡ whole_events last events.now }
    ensures within { result ≤ length events.now }
{
    let mut marks = [false; TASKS];
    let mut whole = 0;
    let mut left = events.events();
    let mut count = 0;
    'events: while let Some(event) = left.next() {
        count += 1;
        put_open(&mut marks, &event);
        if ends_line(last, &event) && are_shut(&marks) {
            whole = count;
        }
    }
    whole
}

// The last task of a round: GROUP, which is task 0, or else the last car.
fn last_task(world: &World) -> u8
    ensures { result ≡ last_task world.now.program.config }
{
    let verified = world.verified();
    if verified.has_task(0) {
        0
    } else {
        verified.sizes().cars
    }
}

/// Leads a world between scans along the events of a trace up to its last whole line, with every output still after it, as after a stop.
/// The answer is how many events follows that line; nothing of them happens. Where an event up to there is refused, it is named.
pub fn go_on(world: &mut World, events: &Trace<'_>) -> Result<usize, Refused>
    requires { IsClosed world.old.world }
    ensures goes_on { IfOk result (GoesOn world.old.program.config world.old.world events.now
        world.new.world) }
    ensures refused { IfErr result (λ r. IsBroken world.old.program.config world.old.world
        events.now r.index r.fault) }
    ensures closed { IfOk result (λ _. IsClosed world.new.world) }
    ensures same { world.new.program ≡ world.old.program }
{
    let whole = whole_events(events, last_task(world));
    let _image = world.image();
    let _config = world.verified().config();
    replay_first(world, events, whole)?;
    world.rest();
    Ok(events.len() - whole)
}
