// Groups made from texts, and what events leave of them.

use group_spec::calls::{Call, Slot};
use group_spec::event::{Event, Reply};
use group_spec::report::{EnteredCall, Report};
use group_spec::{Bounded, CarFields, Fields, SLOT_PLACES};
use group_world::{Replies, World};
use il_syntax::fault::Refusal;
use load_text::load;
use std::alloc::{AllocError, Global};
use std::mem;

/// What a row hands in. A refresh has each car stand locked at a level of one floor.
#[derive(Clone, Copy)]
pub enum Given {
    Start(u8),
    Instruction(u8),
    Commit(u8),
    Refresh { run_limit: u8, cars: u8, pos: u8 },
    Press(Call),
    Gather(u8),
}

/// What a list of events leaves: its replies, the reports of its commits and refreshes, and the slots.
#[derive(Drop)]
pub struct Left {
    pub replies: Vec<Reply>,
    pub reports: Vec<Report>,
    pub slots: Bounded<Slot, SLOT_PLACES>,
}

/// The group of a text as it opens.
pub fn opened(alloc: Global, text: &[u8]) -> Result<World, Refusal> {
    World::new(alloc, load(alloc, text)?)
}

/// Hands events to the group of a text, one after the other, if there is memory.
pub fn play(alloc: Global, text: &[u8], given: &[Given]) -> Option<Left> {
    let Ok(mut world) = opened(alloc, text) else {
        return None;
    };
    let events = events(alloc, given);
    let left = applied(alloc, &mut world, events.as_slice());
    world.release();
    Some(left)
}

/// Whether one run over the events, from the opening of the group of a text, leaves just this.
pub fn runs_so(alloc: Global, text: &[u8], given: &[Given], left: &Left) -> bool {
    let Ok(mut world) = opened(alloc, text) else {
        return false;
    };
    let events = events(alloc, given);
    let replies = run(alloc, &mut world, events.as_slice());
    let slots = world.slots();
    world.release();
    match replies {
        Ok(replies) => same_replies(&replies, left) && slots.as_slice() == left.slots.as_slice(),
        Err(_) => false,
    }
}

fn same_replies(replies: &Replies, left: &Left) -> bool {
    replies.as_slice() == left.replies.as_slice()
        && same_reports(replies.reports(), left.reports.as_slice())
}

// The events that a row hands in. One that finds no memory is missing.
fn events(alloc: Global, given: &[Given]) -> Vec<Event> {
    let mut events = Vec::new(alloc);
    for one in given {
        let _ = events.push(event(*one));
    }
    events
}

// Applies the events one after the other. What finds no memory is missing.
fn applied(alloc: Global, world: &mut World, events: &[Event]) -> Left {
    let mut report = Report::new();
    let mut replies = Vec::new(alloc);
    let mut reports = Vec::new(alloc);
    for event in events {
        let reply = world.apply(event, &mut report);
        let _ = replies.push(reply);
        if let Reply::Committed | Reply::Refreshed = reply {
            let _ = reports.push(mem::replace(&mut report, Report::new()));
        }
    }
    Left {
        replies,
        reports,
        slots: world.slots(),
    }
}

// Runs over all of them, in two runs, one after the other.
fn run(alloc: Global, world: &mut World, events: &[Event]) -> Result<Replies, AllocError> {
    let mut replies = Replies::with_room(alloc, events.len(), events.len())?;
    let (front, back) = events.split_at(events.len() / 2);
    world.run(front, &mut replies);
    world.run(back, &mut replies);
    Ok(replies)
}

fn same_reports(some: &[Report], others: &[Report]) -> bool {
    if some.len() != others.len() {
        return false;
    }
    for at in 0..some.len() {
        if !same_report(&some[at], &others[at]) {
            return false;
        }
    }
    true
}

fn same_report(one: &Report, other: &Report) -> bool {
    one.outputs.as_slice() == other.outputs.as_slice()
        && one.denials.as_slice() == other.denials.as_slice()
        && one.answers.as_slice() == other.answers.as_slice()
        && same_entered(one.entered.as_slice(), other.entered.as_slice())
}

fn same_entered(some: &[EnteredCall], others: &[EnteredCall]) -> bool {
    if some.len() != others.len() {
        return false;
    }
    for at in 0..some.len() {
        let (one, other) = (some[at], others[at]);
        if one.slot != other.slot || one.ticket != other.ticket || one.call != other.call {
            return false;
        }
    }
    true
}

// An event.
fn event(given: Given) -> Event {
    match given {
        Given::Start(task) => Event::Start(task),
        Given::Instruction(task) => Event::Instruction(task),
        Given::Commit(task) => Event::Commit(task),
        Given::Refresh {
            run_limit,
            cars,
            pos,
        } => Event::Refresh(fields(run_limit, cars, pos)),
        Given::Press(call) => Event::Press(call),
        Given::Gather(floor) => Event::Gather(floor),
    }
}

/// The fields of one car or of two, at time 0.
pub fn fields(run_limit: u8, cars: u8, pos: u8) -> Fields {
    let both = [standing(pos), standing(pos)];
    Fields {
        time: 0,
        run_limit,
        fire: false,
        cars: if cars == 1 {
            Bounded::from_slice(&both[..1])
        } else {
            Bounded::from_slice(&both)
        },
    }
}

// A car that stands locked at a level.
fn standing(pos: u8) -> CarFields {
    CarFields {
        pos,
        level: true,
        top: false,
        bottom: true,
        locked: true,
        opened: false,
    }
}
