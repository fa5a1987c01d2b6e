// The lines of the call slots.

ghost use Rattle.std.specs.Prelude.{◌≡◌, ◌≤◌, ◌<◌, ◌+◌, ◌++◌, ◌↔◌, ℕ, List, [], IsTrue, length, Some, IfSome, IfNone, IfOk, IfErr};
ghost use Rattle.group_spec.specs.declared.calls.Call.{Call as CallOf};
ghost use Rattle.group_spec.specs.declared.calls.Slot.{Slot as SlotOf};
ghost use Rattle.group_spec.specs.declared.calls.Slot.TheVariants.{Free};
ghost use Rattle.group_spec.specs.Calls.{greatest_ticket, ticket_of};
ghost use Rattle.trace_text.specs.Text.{part};
ghost use Rattle.trace_text.specs.Parts.{Ends};
ghost use Rattle.group_state.specs.Text.{slot_part};
ghost use Rattle.group_state.specs.Saying.{HasSmallFloors, HasSmallNumbers, SaysSlot, HasFloors, HasActors, HasWay, HasTicket, IsGiven, SlotBreaks, SlotHolds, TakesSlot, RefusesSlot};
ghost use Rattle.group_state.specs.Parts.{calls_of, IsWaiting, IsTold};
ghost use Rattle.group_state.specs.Heads.{TakesCalls, RefusesCalls, TakesSlots, RefusesSlots};

use crate::fault::{StateFault, Wrong};
use crate::lines::{behind, next_line};
use crate::numbers::{last_number, number, take_number};
use group_spec::calls::{Call, Slot};
use group_spec::{Bounded, SLOT_PLACES, Sizes, is_floor};
use trace_text::parts::small_number;

// The greatest ticket.
const GREATEST_TICKET: u64 = 9_223_372_036_854_775_807;

// A ticket and the floors of a call, and what follows them.
fn ticket_and_call(text: &[u8]) -> Option<(u64, Call, &[u8])>
    ensures found { IfSome result (λ p. (p.0 ≤ greatest_ticket) × HasSmallFloors p.1
        × (text.now ≡ part p.0 ++ (part p.1.from ++ (part p.1.to ++ p.2.now))) × Ends 32 p.2.now) }
    ensures none { IfNone result ((ticket : ℕ) (call : CallOf) (rest : List ℕ)
        → ticket ≤ greatest_ticket → HasSmallFloors call → Ends 32 rest
        → text.now ≡ part ticket ++ (part call.from ++ (part call.to ++ rest)) → ⊥) }
{
    let (ticket, rest) = number(text, GREATEST_TICKET)?;
    let (from, rest) = small_number(rest)?;
    let (to, rest) = small_number(rest)?;
    Some((ticket, Call { from, to }, rest))
}

// A slot that waits: its ticket and its call, and nothing after them.
fn waiting(text: &[u8]) -> Option<Slot>
    ensures found { IfSome result (λ slot. IsWaiting text.now slot) }
    ensures none { IfNone result ((slot : SlotOf) → IsWaiting text.now slot → ⊥) }
{
    let (ticket, call, rest) = ticket_and_call(text)?;
    if !rest.is_empty() {
        return None;
    }
    Some(Slot::Waiting { ticket, call })
}

// A slot that is told: its ticket, its call and its car, and nothing after them.
fn told(text: &[u8]) -> Option<Slot>
    ensures found { IfSome result (λ slot. IsTold text.now slot) }
    ensures none { IfNone result ((slot : SlotOf) → IsTold text.now slot → ⊥) }
{
    let (ticket, call, rest) = ticket_and_call(text)?;
    let car = last_number(rest, 255)?;
    Some(Slot::Told {
        ticket,
        call,
        car: car as u8,
    })
}

#[tactic(auto, unfolding(crate::specs::Text::slot_part))]
fn is_free(text: &[u8]) -> bool
    ensures { IsTrue result ↔ (text.now ≡ slot_part Free) }
{
    text == b" FREE".as_slice()
}

// What a slot holds.
fn held(text: &[u8]) -> Option<Slot>
    ensures found { IfSome result (λ slot. HasSmallNumbers slot × (text.now ≡ slot_part slot)) }
    ensures none { IfNone result ((slot : SlotOf) → HasSmallNumbers slot → text.now
        ≡ slot_part slot → ⊥) }
{
    if is_free(text) {
        return Some(Slot::Free);
    }
    match behind(b" WAITING", text) {
        Some(parts) => waiting(parts),
        None => told(behind(b" TOLD", text)?),
    }
}

// The slot of a number that a line tells of.
#[tactic(auto, unfolding(crate::specs::Text::slot_line))]
fn slot_of(number: u8, line: &[u8]) -> Option<Slot>
    ensures found { IfSome result (λ slot. SaysSlot number slot line.now) }
    ensures none { IfNone result ((slot : SlotOf) → SaysSlot number slot line.now → ⊥) }
{
    let parts = behind(b"SLOT", line)?;
    let (own, parts) = small_number(parts)?;
    if own != number {
        return None;
    }
    held(parts)
}

// Whether the floors of a call are the group's.
fn has_floors(sizes: Sizes, call: Call) -> bool
    ensures { IsTrue result ↔ HasFloors sizes call }
{
    is_floor(call.from, sizes) && is_floor(call.to, sizes)
}

// Whether the floors and the car of a slot are the group's.
fn has_actors(sizes: Sizes, slot: &Slot) -> bool
    ensures { IsTrue result ↔ HasActors sizes slot.now }
{
    match slot {
        Slot::Free => true,
        Slot::Waiting { call, .. } => has_floors(sizes, *call),
        Slot::Told { call, car, .. } => {
            has_floors(sizes, *call) && 1 <= *car && *car <= sizes.cars
        }
    }
}

// Whether the floors of its call differ.
fn has_way(slot: &Slot) -> bool
    ensures { IsTrue result ↔ HasWay slot.now }
{
    match slot {
        Slot::Free => true,
        Slot::Waiting { call, .. } | Slot::Told { call, .. } => call.from != call.to,
    }
}

// Whether a slot is under this ticket.
fn is_under(slot: &Slot, ticket: u64) -> bool
    ensures { IsTrue result ↔ (ticket_of slot.now ≡ Some ticket) }
{
    match slot {
        Slot::Free => false,
        Slot::Waiting { ticket: own, .. } | Slot::Told { ticket: own, .. } => *own == ticket,
    }
}

// Whether a ticket was given, and none of the earlier slots is under it.
fn is_given(last: u64, earlier: &[Slot], ticket: u64) -> bool
    ensures { IsTrue result ↔ IsGiven last earlier.now ticket }
{
    if ticket < 1 || last < ticket {
        return false;
    }
    'slots: for slot in earlier {
        if is_under(slot, ticket) {
            return false;
        }
    }
    true
}

// Whether a slot is under such a ticket, or under none.
fn has_ticket(last: u64, earlier: &[Slot], slot: &Slot) -> bool
    ensures { IsTrue result ↔ HasTicket last earlier.now slot.now }
{
    match slot {
        Slot::Free => true,
        Slot::Waiting { ticket, .. } | Slot::Told { ticket, .. } => {
            is_given(last, earlier, *ticket)
        }
    }
}

// The first rule that a slot breaks.
fn broken(sizes: Sizes, last: u64, earlier: &[Slot], slot: &Slot) -> Option<StateFault>
    ensures none { IfNone result (SlotHolds sizes last earlier.now slot.now) }
    ensures some { IfSome result (λ fault. SlotBreaks sizes last earlier.now slot.now fault) }
{
    if !has_actors(sizes, slot) {
        return Some(StateFault::NoSuchActor);
    }
    if !has_way(slot) {
        return Some(StateFault::SameFloor);
    }
    if !has_ticket(last, earlier, slot) {
        return Some(StateFault::Ticket);
    }
    None
}

// The slot of the next line, which has to be the one after the earlier slots, and what follows the line.
fn take_slot<'a>(
    sizes: Sizes,
    last: u64,
    earlier: &[Slot],
    text: &'a [u8],
) -> Result<(Slot, &'a [u8]), StateFault>
    requires { length earlier.now < 255 }
    ensures found { IfOk result (λ p. TakesSlot sizes last earlier.now (length earlier.now + 1)
        text.now p.0 p.1.now) }
    ensures wrong { IfErr result (λ fault. RefusesSlot sizes last earlier.now
        (length earlier.now + 1) text.now fault) }
{
    let (line, rest) = next_line(text)?;
    let Some(slot) = slot_of(earlier.len() as u8 + 1, line) else {
        return Err(StateFault::BadLine);
    };
    if let Some(fault) = broken(sizes, last, earlier, &slot) {
        return Err(fault);
    }
    Ok((slot, rest))
}

// The line of each slot, and what follows them.
fn take_slots(
    sizes: Sizes,
    last: u64,
    text: &[u8],
) -> Result<(Bounded<Slot, SLOT_PLACES>, &[u8]), Wrong>
    requires { sizes.slots ≤ SLOT_PLACES }
    ensures found { IfOk result (λ p. TakesSlots sizes last [] text.now p.0 p.1.now
        × (length p.0 ≡ sizes.slots)) }
    ensures wrong { IfErr result (λ wrong. RefusesSlots sizes last text.now wrong) }
{
    let mut slots = Bounded::new();
    let mut rest = text;
    'slots: while slots.len() < usize::from(sizes.slots) {
        match take_slot(sizes, last, slots.as_slice(), rest) {
            Ok((slot, behind)) => {
                slots.push(slot);
                rest = behind;
            }
            Err(fault) => {
                let number = slots.len() as u64 + 1;
                return Err(Wrong {
                    fault,
                    line: 6 + u64::from(sizes.cars) + number,
                });
            }
        }
    }
    Ok((slots, rest))
}

/// The last ticket that was given, and the slots, slot 1 first.
#[derive(Drop)]
pub struct Given {
    pub last_ticket: u64,
    pub slots: Bounded<Slot, SLOT_PLACES>,
}

/// The last ticket and the slots, and what follows their lines.
pub fn take_calls(sizes: Sizes, text: &[u8]) -> Result<(Given, &[u8]), Wrong>
    requires { sizes.slots ≤ SLOT_PLACES }
    ensures found { IfOk result (λ p. TakesCalls sizes text.now (calls_of p.0) p.1.now) }
    ensures wrong { IfErr result (λ wrong. RefusesCalls sizes text.now wrong) }
{
    let (last_ticket, rest) = match take_number(
        b"TICKETS",
        GREATEST_TICKET,
        GREATEST_TICKET,
        text,
    ) {
        Ok(taken) => taken,
        Err(fault) => {
            return Err(Wrong {
                fault,
                line: 6 + u64::from(sizes.cars),
            });
        }
    };
    let (slots, rest) = take_slots(sizes, last_ticket, rest)?;
    Ok((Given { last_ticket, slots }, rest))
}
