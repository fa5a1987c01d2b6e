// Along a trace, with what the world replies.

ghost use Rattle.std.specs.Prelude.{◌≡◌, Ok, IfOk, IfErr};
ghost use Rattle.group_journal.specs.Rounds.{Refuses};
ghost use Rattle.group_rounds.specs.Along.{RepliesTo, TakesWith};
ghost use Rattle.group_spec.specs.declared.trace.TraceEvent.TheVariants.{Commit};
ghost use Rattle.group_spec.specs.Replies.{Refused, reply_with};
ghost use Rattle.group_spec.specs.World.{happens};

use crate::replay;
use crate::scan::finish_and_commit;
use group_spec::event::{Event, EventFault, Reply};
use group_spec::report::Report;
use group_spec::trace::TraceEvent;
use group_world::World;
use std::alloc::AllocError;

/// Why a trace was not followed to its end.
#[derive(Clone, Copy)]
pub enum Stop {
    /// The world refuses this event of the trace, by its index.
    Refused(replay::Refused),
    /// An allocation failed.
    Memory,
}

impl From<AllocError> for Stop {
    ghost use Rattle.std.specs.Prelude.{◌≡◌};
    ghost use Rattle.group_rounds.specs.declared.along.Stop.TheVariants.{Memory};

    ghost from_gives = { λ _ s. s ≡ Memory };

    fn from(_error: AllocError) -> Stop {
        Stop::Memory
    }
}

// One event, unless it is refused, and the reply to it.
fn replied(world: &mut World, event: &Event, report: &mut Report) -> Result<Reply, EventFault>
    ensures taken { IfOk result (λ reply. RepliesTo world.old.program.config
        world.old.world event.now (reply_with reply report.new) world.new.world) }
    ensures refused { IfErr result (λ fault. happens world.old.program.config
        world.old.world event.now ≡ Ok (world.old.world, Refused fault)) }
    ensures same { world.new.program ≡ world.old.program }
{
    let reply = world.apply(event, report);
    match reply {
        Reply::Refused(fault) => Err(fault),
        _ => Ok(reply),
    }
}

// The rest of a task's open scan, and its commit, with the reply to this.
fn committed(world: &mut World, task: u8, report: &mut Report) -> Result<Reply, EventFault>
    ensures taken { IfOk result (λ reply. TakesWith world.old.program.config world.old.world
        (Commit task) (reply_with reply report.new) world.new.world) }
    ensures refused { IfErr result (Refuses world.old.program.config world.old.world
        (Commit task)) }
    ensures same { world.new.program ≡ world.old.program }
{
    finish_and_commit(world, task, report)?;
    Ok(Reply::Committed)
}

/// One event of a trace, unless it is refused, and what the world replied to it. A commit comes after the rest of its task's scan, and the reply is that
/// to the commit.
pub fn reply_to(
    world: &mut World,
    event: &TraceEvent,
    report: &mut Report,
) -> Result<Reply, EventFault>
    ensures taken { IfOk result (λ reply. TakesWith world.old.program.config
        world.old.world event.now (reply_with reply report.new) world.new.world) }
    ensures refused { IfErr result (Refuses world.old.program.config world.old.world event.now) }
    ensures same { world.new.program ≡ world.old.program }
{
    match event {
        TraceEvent::Start(task) => replied(world, &Event::Start(*task), report),
        TraceEvent::Commit(task) => committed(world, *task, report),
        TraceEvent::Press(call) => replied(world, &Event::Press(*call), report),
        TraceEvent::Gather(floor) => replied(world, &Event::Gather(*floor), report),
        TraceEvent::Refresh(fields) => replied(world, &Event::Refresh(fields.copied()), report),
    }
}
