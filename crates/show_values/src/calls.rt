// The calls of a trace.

ghost use Rattle.std.specs.Prelude.{◌≡◌, ◌+◌, ◌^◌, ◌<◌, length, IfErr, IfOk, OnOk};
ghost use Rattle.show_calls.specs.Logs.{is_new, entered_of, answers_of, log_after};
ghost use Rattle.group_rounds.specs.Along.{IsStopped};
ghost use Rattle.group_spec.specs.Replies.{reply_with};
ghost use Rattle.group_spec.specs.declared.report.Report.{Report};
ghost use Rattle.show_values.specs.Calls.{IsLogOf};

use group_rounds::along::{Stop, reply_to};
use group_rounds::replay::Refused;
use group_spec::event::Reply;
use group_spec::report::{Answered, EnteredCall, Report};
use group_spec::trace::TraceEvent;
use group_world::World;
use show_calls::log::Log;
use std::alloc::{AllocError, Global};
use trace_text::trace::Trace;

/// What is known of the calls of a trace after its events, which the world takes one after the other, up to the first that is refused.
pub fn call_log(alloc: Global, world: &mut World, events: &Trace<'_>) -> Result<Log, Stop>
    requires few { length events.now < 2 ^ 31 }
    ensures log { IfOk result (IsLogOf world.old.program.config world.old.world events.now
        world.new.world) }
    ensures stopped { IfErr result (IsStopped world.old.program.config world.old.world events.now) }
    ensures same { world.new.program ≡ world.old.program }
{
    let mut log = Log::new(alloc);
    let mut report = Report::new();
    let mut left = events.events();
    let mut index = 0;
    'events: while let Some(event) = left.next() {
        match reply_to(world, &event, &mut report) {
            Ok(reply) => note(&mut log, &event, reply, &report, world)?,
            Err(fault) => return Err(Stop::Refused(Refused { index, fault })),
        }
        index += 1;
    }
    Ok(log)
}

// Notes an event that the world took, with its reply and the world after it.
fn note(
    log: &mut Log,
    event: &TraceEvent,
    reply: Reply,
    report: &Report,
    world: &World,
) -> Result<(), AllocError>
    requires pressed { log.old.pressed + 1 < 2 ^ 32 }
    requires round { log.old.at.round + 1 < 2 ^ 32 }
    ensures { OnOk result (log.new
        ≡ log_after event.now (reply_with reply report.now) world.now.world log.old) }
{
    match event {
        TraceEvent::Start(_) | TraceEvent::Gather(_) => Ok(()),
        TraceEvent::Press(call) => log.press(*call, is_new(reply)),
        TraceEvent::Commit(task) => {
            let cars = world.image().fields.cars.as_slice();
            log.commit(*task, answers_of(reply, report), cars);
            Ok(())
        }
        TraceEvent::Refresh(fields) => {
            let slots = world.slots();
            log.refresh(
                fields.time,
                entered_of(reply, report),
                fields.cars.as_slice(),
                slots.as_slice(),
            )
        }
    }
}

// Whether a press put its call on the desk.
fn is_new(reply: Reply) -> bool
    ensures { (report : Report) → result ≡ is_new (reply_with reply report) }
{
    match reply {
        Reply::New => true,
        _ => false,
    }
}

// The calls that a refresh entered.
fn entered_of(reply: Reply, report: &Report) -> &[EnteredCall]
    ensures { result.now ≡ entered_of (reply_with reply report.now) }
{
    match reply {
        Reply::Refreshed => report.entered.as_slice(),
        _ => &[],
    }
}

/// The tells or the serve of a commit.
pub fn answers_of(reply: Reply, report: &Report) -> &[Answered]
    ensures { result.now ≡ answers_of (reply_with reply report.now) }
{
    match reply {
        Reply::Committed => report.answers.as_slice(),
        _ => &[],
    }
}
