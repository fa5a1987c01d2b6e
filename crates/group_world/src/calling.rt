// What events do to the calls, and the rows of a report.

ghost use Rattle.std.specs.Prelude.{◌≡◌, ℕ, List, All, IsTrue, Option, ◌≤◌, ◌<◌, ◌+◌, ◌∷◌, [], length, map};
ghost use Rattle.group_spec.specs.Calls.{enter_all, ticket_of};
ghost use Rattle.group_spec.specs.Settle.{denials_of};
ghost use Rattle.group_spec.specs.World.{serve_with, tell_with, tell_all};
ghost use Rattle.group_world.specs.Running.{wished_ticket, serve_under};

use crate::tickets::Tickets;
use group_calls::book::CallBook;
use group_spec::calls::{Answer, Entering};
use group_spec::hand::Hand;
use group_spec::report::{Answered, DENIAL_PLACES, Denial, EnteredCall, Rule};
use group_spec::{Bounded, SLOT_PLACES};

/// Takes all items out of a row.
pub fn clear<T: Drop + Default, const N: usize>(row: &mut Bounded<T, N>)
    ensures { row.new ≡ [] }
{
    if row.len() > 0 {
        *row = Bounded::new();
    }
}

/// The denials of a car, in place of those before.
pub fn report_denials(denials: &mut Bounded<Denial, DENIAL_PLACES>, car: u8, rules: &[Rule])
    requires { length rules.now ≤ DENIAL_PLACES }
    ensures { denials.new ≡ denials_of car rules.now }
{
    clear(denials);
    'rules: for rule in rules {
        denials.push(Denial { car, rule: *rule });
    }
}

/// The ticket of the slot that a car wishes to serve; none where it wishes none, where the slot was free, or where there is no such slot.
#[inline(always)]
pub fn ticket_in(tickets: &[Option<u64>], slot: u8) -> Option<u64>
    ensures { result ≡ wished_ticket tickets.now slot }
{
    if slot == 0 {
        return None;
    }
    match tickets.get(usize::from(slot - 1)) {
        Some(ticket) => *ticket,
        None => None,
    }
}

// A car serves the call in a slot, under a ticket.
fn served(calls: &mut CallBook, slot: u8, ticket: Option<u64>, car: u8) -> Answer
    ensures { serve_with calls.old slot car ticket ≡ (calls.new, result) }
{
    match ticket {
        Some(ticket) => calls.serve(slot, ticket, car),
        None => Answer::Stale,
    }
}

/// What a car serves: the call in the slot of its wish, under a ticket.
#[inline(always)]
pub fn serve(
    calls: &mut CallBook,
    car: u8,
    slot: u8,
    ticket: Option<u64>,
    answers: &mut Bounded<Answered, SLOT_PLACES>,
)
    ensures { serve_under calls.old car slot ticket ≡ (calls.new, answers.new) }
{
    clear(answers);
    if slot > 0 {
        let answer = served(calls, slot, ticket, car);
        answers.push(Answered {
            slot,
            ticket,
            car,
            answer,
        });
    }
}

// Tells the call of a slot to a car, under the ticket that the scan saw.
fn told(calls: &mut CallBook, slot: u8, ticket: Option<u64>, car: u8) -> Answer
    ensures { tell_with calls.old slot car ticket ≡ (calls.new, result) }
{
    match ticket {
        Some(ticket) => calls.tell(slot, ticket, car),
        None => Answer::Stale,
    }
}

// Tells the call of a slot to the car that was assigned to it, under the ticket that the scan saw; car 0 is none.
fn tell(
    calls: &mut CallBook,
    slot: u8,
    ticket: Option<u64>,
    car: u8,
    answers: &mut Bounded<Answered, SLOT_PLACES>,
)
    requires { length answers.old < SLOT_PLACES }
    ensures told { (tickets : List (Option ℕ)) (cars : List ℕ)
        → tell_all calls.old answers.old slot (ticket ∷ tickets) (car ∷ cars)
        ≡ tell_all calls.new answers.new (slot + 1) tickets cars }
    ensures room { length answers.new ≤ length answers.old + 1 }
{
    if car == 0 {
        return;
    }
    let answer = told(calls, slot, ticket, car);
    answers.push(Answered {
        slot,
        ticket,
        car,
        answer,
    });
}

// Whether there is no car among these; 0 is none. All are looked at, and so the machine takes many in a step.
fn are_none(cars: &[u8]) -> bool
    ensures { IsTrue result → All (λ car. car ≡ 0) cars.now }
{
    let mut none = true;
    'cars: for car in cars {
        none &= *car == 0;
    }
    none
}

// Tells each call to the car that was assigned to its slot, in the order of the slots, under these tickets.
fn tell_each(
    calls: &mut CallBook,
    tickets: &[Option<u64>],
    cars: &[u8],
    answers: &mut Bounded<Answered, SLOT_PLACES>,
)
    requires few { length tickets.now ≤ SLOT_PLACES }
    requires each { length cars.now ≡ length tickets.now }
    requires none { answers.old ≡ [] }
    ensures { tell_all calls.old [] 1 tickets.now cars.now ≡ (calls.new, answers.new) }
{
    for slot in 0..tickets.len() {
        tell(calls, slot as u8 + 1, tickets[slot], cars[slot], answers);
    }
}

/// Tells each call to the car that GROUP assigned to its slot, in the order of the slots, under the tickets that its scan saw.
pub fn tell_all(
    calls: &mut CallBook,
    tickets: &[Option<u64>],
    cars: &[u8],
    answers: &mut Bounded<Answered, SLOT_PLACES>,
)
    requires few { length tickets.now ≤ SLOT_PLACES }
    requires each { length cars.now ≡ length tickets.now }
    ensures { tell_all calls.old [] 1 tickets.now cars.now ≡ (calls.new, answers.new) }
{
    clear(answers);
    if are_none(cars) {
        return;
    }
    tell_each(calls, tickets, cars, answers);
}

/// Tells each call to the car that GROUP assigned to its slot, under the tickets that the slots have now, which are copied. It is a function of its
/// own, since few scans assign a car.
#[cold]
#[inline(never)]
pub fn tell_all_now(calls: &mut CallBook, cars: &[u8], answers: &mut Bounded<Answered, SLOT_PLACES>)
    requires { length cars.now ≡ length calls.old.slots }
    ensures { tell_all calls.old [] 1 (map ticket_of calls.old.slots) cars.now
        ≡ (calls.new, answers.new) }
{
    let _slots = calls.count();
    clear(answers);
    let mut tickets = Tickets::none();
    tickets.open(calls);
    tell_each(calls, tickets.saw(), cars, answers);
}

/// The calls of the hand enter in its order; from the first without a slot on they stay.
pub fn enter_all(
    calls: &mut CallBook,
    hand: &mut Hand,
    done: &mut Bounded<EnteredCall, SLOT_PLACES>,
)
    ensures { enter_all calls.old [] hand.old
        ≡ record { calls = calls.new; hand = hand.new; done = done.new } }
{
    let _slots = calls.count();
    clear(done);
    'calls: while let Some(call) = hand.first() {
        let Entering::Done { slot, ticket } = calls.enter(call) else {
            return; // no slot is left
        };
        done.push(EnteredCall { slot, ticket, call });
        hand.take_first();
    }
}
