// A trace's events, followed.

ghost use Rattle.std.specs.Prelude.{◌≡◌, OnOk, IfErr};
ghost use Rattle.group_journal.specs.Rounds.{TakesAll};
ghost use Rattle.show_picture.specs.Stops.{IsStopped};

use crate::stop::Stop;
use crate::story::Story;
use group_rounds::replay::{Refused, take};
use group_spec::report::Report;
use group_spec::trace::TraceEvent;
use group_world::World;
use std::alloc::AllocError;
use trace_text::trace::Trace;

// Notes an event that the world took, with its report if it has one.
fn note(
    world: &World,
    event: &TraceEvent,
    report: &Report,
    story: &mut Story,
) -> Result<(), AllocError> {
    match event {
        TraceEvent::Refresh(fields) => story.note_refresh(fields, report),
        TraceEvent::Commit(_) => {
            let slots = world.slots();
            story.note_commit(slots.as_slice(), report)
        }
        TraceEvent::Start(_) | TraceEvent::Press(_) | TraceEvent::Gather(_) => Ok(()),
    }
}

/// The events of a trace, one after the other, up to the first that is refused, and what happens along them.
pub fn follow(world: &mut World, events: &Trace<'_>, story: &mut Story) -> Result<(), Stop>
    ensures taken { OnOk result (TakesAll world.old.program.config world.old.world events.now
        world.new.world) }
    ensures stopped { IfErr result (IsStopped world.old.program.config world.old.world events.now) }
    ensures same { world.new.program ≡ world.old.program }
{
    let mut report = Report::new();
    let mut left = events.events();
    let mut index = 0;
    'events: while let Some(event) = left.next() {
        if let Err(fault) = take(world, &event, &mut report) {
            return Err(Stop::Refused(Refused { index, fault }));
        }
        note(world, &event, &report, story)?;
        index += 1;
    }
    Ok(())
}
