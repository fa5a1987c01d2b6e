// The calls of a world.

ghost use Rattle.std.specs.Prelude.{◌≡◌, ◌≤◌, [], length};

use crate::memory::interlock::fields;
use crate::memory::lines::{allocation, no_allocation, print};
use crate::memory::program::number;
use crate::memory::text::TEXT;
use group_spec::calls::Call;
use group_spec::event::{Event, Reply};
use group_spec::report::Report;
use group_world::{Replies, World};
use il_syntax::fault::Refusal;
use load_text::load;
use std::alloc::{AllocError, Global};
use std::io::Print;

const UP: Call = Call { from: 3, to: 5 };

// A call that enters, a scan of GROUP, which tells it to car 1, and a scan of car 1 that isn't at its end.
fn events() -> [Event; 13] {
    [
        Event::Press(UP),
        Event::Gather(3),
        Event::Refresh(fields(2)),
        Event::Start(0),
        Event::Instruction(0),
        Event::Instruction(0),
        Event::Instruction(0),
        Event::Instruction(0),
        Event::Instruction(0),
        Event::Commit(0),
        Event::Start(1),
        Event::Instruction(1),
        Event::Commit(1),
    ]
}

// A run over all of them, for whose replies and reports there is room: how many there are.
fn run(world: &mut World, events: &[Event], replies: &mut Replies) -> [i128; 2]
    requires empty { replies.old.items ≡ [] }
    requires none { replies.old.reports ≡ 0 }
    requires room { length events.now ≤ replies.old.room }
    requires reports { length events.now ≤ replies.old.report_room }
{
    world.run(events, replies);
    [
        replies.as_slice().len() as i128,
        replies.reports().len() as i128,
    ]
}

// The events by themselves: how many are not refused. Then the scan of car 1 goes to its end, and serves the call.
fn apply(world: &mut World, events: &[Event], report: &mut Report) -> [i128; 3] {
    let mut taken = 0u8;
    for event in events {
        if !matches!(world.apply(event, report), Reply::Refused(_)) {
            taken = taken.wrapping_add(1);
        }
    }
    let steps = world.finish(1).unwrap_or(0);
    world.apply(&Event::Commit(1), report);
    [taken as i128, steps as i128, report.answers.len() as i128]
}

// What reads it.
fn readings(world: &World) -> [i128; 6] {
    [
        world.image().fields.time as i128,
        world.slots().len() as i128,
        world.verified().sizes().cars as i128,
        world.sizes().floors as i128,
        number(world.global("G")),
        number(world.variable(1, "N")),
    ]
}

// The calls over a world and some events.
fn over<R: Print>(
    rt: &R,
    alloc: Global,
    world: &mut World,
    events: &[Event],
    report: &mut Report,
) -> Result<(), AllocError> {
    let count = events.len();
    let mut replies = Replies::with_room(alloc, count, count)?;
    no_allocation(rt);
    print(
        rt,
        "World::run, Replies::reports",
        &run(world, events, &mut replies),
    );
    print(
        rt,
        "World::apply, finish, apply",
        &apply(world, events, report),
    );
    print(
        rt,
        "World::image, slots, verified, sizes, global, variable",
        &readings(world),
    );
    allocation(rt);
    Ok(())
}

/// Each call.
pub fn all<R: Print>(rt: &R, alloc: Global, report: &mut Report) -> Result<(), Refusal> {
    let verified = load(alloc, TEXT)?;
    let mut world = World::new(alloc, verified)?;
    let done = over(rt, alloc, &mut world, &events(), report);
    world.release();
    Ok(done?)
}
