// Events that a world takes.

ghost use Rattle.std.specs.Prelude.{◌≡◌, [], ◌∷◌, Ok, OnOk, IfErr, true, false, is_some};
ghost use Rattle.group_journal.specs.Rounds.{Happen};
ghost use Rattle.group_rounds.specs.Shown.{FinishesReporting, ScansReporting};
ghost use Rattle.group_journal.specs.Closed.{IsClosed};
ghost use Rattle.group_laws.specs.Tasks.{IsTaskOf};
ghost use Rattle.scan_task.specs.Scanning.{HasTask};
ghost use Rattle.group_spec.specs.declared.event.Event.TheVariants.{Instruction};
ghost use Rattle.group_spec.specs.Replies.{Refused};
ghost use Rattle.group_spec.specs.World.{happens};

use group_spec::event::{Event, EventFault, Reply};
use group_spec::report::Report;
use group_world::World;

/// One event, unless it is refused.
#[inline(always)]
pub fn taken(world: &mut World, event: &Event, report: &mut Report) -> Result<(), EventFault>
    ensures taken { OnOk result (Happen world.old.program.config world.old.world (event.now ∷ [])
        world.new.world) }
    ensures refused { IfErr result (λ fault. (world.new.world ≡ world.old.world)
        × (happens world.old.program.config world.old.world event.now
        ≡ Ok (world.old.world, Refused fault))) }
    ensures same { world.new.program ≡ world.old.program }
{
    match world.apply(event, report) {
        Reply::Refused(fault) => Err(fault),
        _ => Ok(()),
    }
}

/// The rest of a task's open scan, and its commit; refused where there is no instruction to run.
#[inline(always)]
pub fn finish_and_commit(world: &mut World, task: u8, report: &mut Report) -> Result<(), EventFault>
    ensures taken { OnOk result (FinishesReporting world.old.program.config task world.old.world
        world.new.world report.new) }
    ensures refused { IfErr result (λ fault. (world.new.world ≡ world.old.world)
        × (happens world.old.program.config world.old.world (Instruction task)
        ≡ Ok (world.old.world, Refused fault))) }
    ensures same { world.new.program ≡ world.old.program }
{
    if let Err(fault) = world.finish(task) {
        return Err(fault);
    }
    world.apply(&Event::Commit(task), report);
    Ok(())
}

/// A whole scan of a task of the group, of which none is open.
#[inline(always)]
pub fn scan(world: &mut World, task: u8, report: &mut Report)
    requires task { HasTask world.old.program.config task }
    requires closed { IsClosed world.old.world }
    ensures scan { ScansReporting world.old.program.config task world.old.world world.new.world
        report.new }
    ensures closed { IsClosed world.new.world }
    ensures same { world.new.program ≡ world.old.program }
{
    let _config = world.verified().config();
    world.scan_whole(task, report);
}
