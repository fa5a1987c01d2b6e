// What is known of a trace's calls.

ghost use Rattle.std.specs.Prelude.{◌≡◌, ◌+◌, ◌^◌, ◌<◌, OnOk, option_map, option_copied};
ghost use Rattle.show_calls.specs.Logs.{empty_log, pressed_in, beginning, entered_in, all_entered_in, place_of, journey_at, with_journey, stands_open, fields_of, boarded_first, boarded_under, boarded_from, all_boarded_from, refreshed_in, told_under, told_by, all_told_by, served_to, served_under, served_by, all_served_by, committed_in, in_next_round, boarded_in};

use crate::journey::{Journey, Moment, Served, Told};
use crate::presses::{Pressed, Presses};
use base_lists::Items;
use group_spec::calls::{Answer, Call, Slot};
use group_spec::image::CarFields;
use group_spec::report::{Answered, EnteredCall};
use std::alloc::{AllocError, Global};

/// What is known of a trace's calls after one of its events. A round begins with a refresh; the first is round 1.
#[derive(Drop)]
pub struct Log {
    /// The last round, and NOW of it.
    pub at: Moment,
    /// How many presses there were.
    pub pressed: u32,
    /// Those of calls that no refresh has entered yet.
    pub pending: Presses,
    /// The calls that were entered, by rising ticket.
    pub journeys: Items<Journey>,
}

impl Log {
    /// Before the first event.
    pub fn new(alloc: Global) -> Log
        ensures { result ≡ empty_log }
    {
        Log {
            at: Moment { round: 0, now: 0 },
            pressed: 0,
            pending: Presses::new(alloc),
            journeys: Items::new(alloc),
        }
    }

    /// A press, which put its call on the desk, or found it there.
    pub fn press(&mut self, call: Call, is_new: bool) -> Result<(), AllocError>
        requires pressed { self.old.pressed + 1 < 2 ^ 32 }
        requires round { self.old.at.round + 1 < 2 ^ 32 }
        ensures { OnOk result (self.new ≡ pressed_in is_new call self.old) }
    {
        self.pressed += 1;
        if is_new {
            let round = self.at.round + 1;
            self.pending.push(Pressed { call, round })?;
        }
        Ok(())
    }

    /// A refresh at a time, with the calls that it entered, the cars as it reports them and the call slots after it.
    pub fn refresh(
        &mut self,
        now: u32,
        entered: &[EnteredCall],
        cars: &[CarFields],
        slots: &[Slot],
    ) -> Result<(), AllocError>
        requires round { self.old.at.round + 1 < 2 ^ 32 }
        ensures { OnOk result (self.new
            ≡ refreshed_in now entered.now cars.now slots.now self.old) }
    {
        let round = self.at.round + 1;
        self.at = Moment { round, now };
        self.enter_all(entered)?;
        board_all(&mut self.journeys, self.at, cars, slots);
        Ok(())
    }

    // Calls enter.
    fn enter_all(&mut self, calls: &[EnteredCall]) -> Result<(), AllocError>
        ensures { OnOk result (self.new ≡ all_entered_in calls.now self.old) }
    {
        'calls: for entered in calls {
            self.enter(entered)?;
        }
        Ok(())
    }

    // A call enters.
    fn enter(&mut self, entered: &EnteredCall) -> Result<(), AllocError>
        ensures { OnOk result (self.new ≡ entered_in entered.now self.old) }
    {
        let pressed = self.pending.take(entered.call);
        self.journeys.push(beginning(self.at, pressed, entered))
    }

    /// A commit of a task, 0 is GROUP, with its tells or its serve, and the cars after it.
    pub fn commit(&mut self, task: u8, answers: &[Answered], cars: &[CarFields])
        ensures { self.new ≡ committed_in task answers.now cars.now self.old }
    {
        if task == 0 {
            tell_all(&mut self.journeys, self.at.round, answers);
        } else {
            serve_all(&mut self.journeys, self.at, cars, answers);
        }
    }
}

// A journey as it begins.
fn beginning(at: Moment, pressed: Option<u32>, entered: &EnteredCall) -> Journey
    ensures { result ≡ beginning at pressed entered.now }
{
    Journey {
        ticket: entered.ticket,
        call: entered.call,
        pressed,
        entered: at,
        told: None,
        boarded: None,
        served: None,
    }
}

// The place of a ticket: tickets rise by one from that of the first call.
fn place_of(journeys: &[Journey], ticket: u64) -> Option<usize>
    ensures { result ≡ place_of ticket journeys.now }
{
    match journeys {
        [] => None,
        [first, ..] => {
            if ticket < first.ticket {
                None
            } else {
                Some((ticket - first.ticket) as usize)
            }
        }
    }
}

// The journey of a ticket.
fn journey_at(journeys: &Items<Journey>, ticket: u64) -> Option<Journey>
    ensures { result ≡ journey_at ticket journeys.now }
{
    let place = place_of(journeys.as_slice(), ticket)?;
    journeys.as_slice().get(place).copied()
}

// Puts another journey under a ticket.
fn put(journeys: &mut Items<Journey>, ticket: u64, journey: Journey)
    ensures { journeys.new ≡ with_journey ticket journey journeys.old }
{
    let Some(place) = place_of(journeys.as_slice(), ticket) else {
        return;
    };
    if place < journeys.as_slice().len() {
        journeys.set(place, journey);
    }
}

// The fields of a car; cars count from 1.
fn fields_of(cars: &[CarFields], car: u8) -> Option<CarFields>
    ensures { result ≡ fields_of car cars.now }
{
    let index = usize::from(car).checked_sub(1)?;
    cars.get(index).copied()
}

// Whether a car stands at a floor with its door wholly open.
fn stands_open(floor: u8, fields: Option<CarFields>) -> bool
    ensures { result ≡ stands_open floor fields }
{
    match fields {
        Some(fields) => fields.pos == floor && (fields.level && fields.opened),
        None => false,
    }
}

// The slots whose car stands at their landing: their passengers board.
fn board_all(journeys: &mut Items<Journey>, at: Moment, cars: &[CarFields], slots: &[Slot])
    ensures { journeys.new ≡ all_boarded_from at cars.now slots.now journeys.old }
{
    'slots: for slot in slots {
        board(journeys, at, cars, *slot);
    }
}

fn board(journeys: &mut Items<Journey>, at: Moment, cars: &[CarFields], slot: Slot)
    ensures { journeys.new ≡ boarded_from at cars.now slot journeys.old }
{
    if let Slot::Told { ticket, call, car } = slot {
        if stands_open(call.from, fields_of(cars, car)) {
            board_under(journeys, at, ticket);
        }
    }
}

fn board_under(journeys: &mut Items<Journey>, at: Moment, ticket: u64)
    ensures { journeys.new ≡ boarded_under ticket at journeys.old (journey_at ticket journeys.old) }
{
    if let Some(journey) = journey_at(journeys, ticket) {
        put(journeys, ticket, boarded_first(at, journey));
    }
}

// A journey whose passenger has boarded, the first time.
fn boarded_first(at: Moment, journey: Journey) -> Journey
    ensures { result ≡ boarded_first at journey journey.boarded }
{
    match journey.boarded {
        Some(_) => journey,
        None => Journey {
            boarded: Some(at),
            ..journey
        },
    }
}

// The tells of a commit.
fn tell_all(journeys: &mut Items<Journey>, round: u32, answers: &[Answered])
    ensures { journeys.new ≡ all_told_by round answers.now journeys.old }
{
    'answers: for answered in answers {
        tell(journeys, round, *answered);
    }
}

fn tell(journeys: &mut Items<Journey>, round: u32, answered: Answered)
    ensures { journeys.new
        ≡ told_by round answered.answer answered.ticket answered.car journeys.old }
{
    if let (Answer::Done, Some(ticket)) = (answered.answer, answered.ticket) {
        tell_under(journeys, round, ticket, answered.car);
    }
}

fn tell_under(journeys: &mut Items<Journey>, round: u32, ticket: u64, car: u8)
    ensures { journeys.new
        ≡ told_under ticket round car journeys.old (journey_at ticket journeys.old) }
{
    if let Some(journey) = journey_at(journeys, ticket) {
        let told = Some(Told { round, car });
        put(journeys, ticket, Journey { told, ..journey });
    }
}

// The serve of a commit.
fn serve_all(journeys: &mut Items<Journey>, at: Moment, cars: &[CarFields], answers: &[Answered])
    ensures { journeys.new ≡ all_served_by at cars.now answers.now journeys.old }
{
    'answers: for answered in answers {
        serve(journeys, at, cars, *answered);
    }
}

fn serve(journeys: &mut Items<Journey>, at: Moment, cars: &[CarFields], answered: Answered)
    ensures { journeys.new
        ≡ served_by at cars.now answered.answer answered.ticket answered.car journeys.old }
{
    if let (Answer::Done, Some(ticket)) = (answered.answer, answered.ticket) {
        serve_under(journeys, at, fields_of(cars, answered.car), ticket);
    }
}

fn serve_under(journeys: &mut Items<Journey>, at: Moment, fields: Option<CarFields>, ticket: u64)
    ensures { journeys.new
        ≡ served_under ticket at fields journeys.old (journey_at ticket journeys.old) }
{
    if let Some(journey) = journey_at(journeys, ticket) {
        put(journeys, ticket, served_to(at, fields, journey));
    }
}

// A journey that has ended.
fn served_to(at: Moment, fields: Option<CarFields>, journey: Journey) -> Journey
    ensures { result ≡ served_to at fields journey }
{
    let there = stands_open(journey.call.to, fields);
    Journey {
        served: Some(Served { at, there }),
        ..journey
    }
}
