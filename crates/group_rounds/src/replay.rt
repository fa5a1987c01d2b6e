// A trace's events, replayed.

ghost use Rattle.std.specs.Prelude.{◌≡◌, OnOk, IfErr, take};
ghost use Rattle.group_journal.specs.Rounds.{Takes, TakesAll, Refuses, IsRefusedAt};

use crate::scan::{finish_and_commit, taken};
use group_spec::event::{Event, EventFault};
use group_spec::report::Report;
use group_spec::trace::TraceEvent;
use group_world::World;
use trace_text::trace::Trace;

/// The first event that the world refused, by its index, and why.
#[derive(Clone, Copy)]
pub struct Refused {
    pub index: usize,
    pub fault: EventFault,
}

/// One event of a trace, unless it is refused. A commit comes after the rest of its task's scan.
pub fn take(world: &mut World, event: &TraceEvent, report: &mut Report) -> Result<(), EventFault>
    ensures taken { OnOk result (Takes world.old.program.config world.old.world event.now
        world.new.world) }
    ensures refused { IfErr result (Refuses world.old.program.config world.old.world event.now) }
    ensures same { world.new.program ≡ world.old.program }
{
    match event {
        TraceEvent::Start(task) => taken(world, &Event::Start(*task), report),
        TraceEvent::Commit(task) => finish_and_commit(world, *task, report),
        TraceEvent::Press(call) => taken(world, &Event::Press(*call), report),
        TraceEvent::Gather(floor) => taken(world, &Event::Gather(*floor), report),
        TraceEvent::Refresh(fields) => taken(world, &Event::Refresh(fields.copied()), report),
    }
}

/// The events of a trace, one after the other, up to the first that is refused. No allocation.
pub fn replay(world: &mut World, events: &Trace<'_>) -> Result<(), Refused>
    ensures taken { OnOk result (TakesAll world.old.program.config world.old.world events.now
        world.new.world) }
    ensures refused { IfErr result (λ r. IsRefusedAt world.old.program.config world.old.world
        events.now r.index r.fault) }
    ensures same { world.new.program ≡ world.old.program }
{
    replay_first(world, events, events.len())
}

/// The first so many events of a trace, one after the other, up to the first that is refused. No allocation.
pub fn replay_first(world: &mut World, events: &Trace<'_>, count: usize) -> Result<(), Refused>
    ensures taken { OnOk result (TakesAll world.old.program.config world.old.world
        (take count events.now) world.new.world) }
    ensures refused { IfErr result (λ r. IsRefusedAt world.old.program.config world.old.world
        (take count events.now) r.index r.fault) }
    ensures same { world.new.program ≡ world.old.program }
{
    let mut report = Report::new();
    let mut left = events.events();
    let mut index = 0;
    'events: while index < count {
        let Some(event) = left.next() else {
            break;
        };
        if let Err(fault) = take(world, &event, &mut report) {
            return Err(Refused { index, fault });
        }
        index += 1;
    }
    Ok(())
}
