// The book of a group's calls.

ghost use Rattle.std.specs.Prelude.{◌≡◌, ◌≢◌, ◌<◌, ◌≤◌, ◌==◌, length, slice_get, nat_lt, ℕ, Some, IfSome, IfNone};
ghost use Rattle.std.specs.Int.{bit_at};
ghost use Rattle.group_spec.specs.Bits.{flag, IsWithBit};
ghost use Rattle.group_spec.specs.Calls.{opening_calls, greatest_ticket, lowest_free_from, slot_at, with_slot, enter, tell, serve};
ghost use Rattle.group_calls.specs.Columns.{shown_of};
ghost use Rattle.group_calls.specs.Sets.{is_free, is_waiting, is_told, kept_of, IsLowest};

use crate::columns::Columns;
use base_lists::Bounded;
use group_spec::calls::{Answer, Call, Entering, Slot};
use group_spec::image::{MOST_CARS, SLOT_PLACES, Sizes};
use std::marker::Model;

// The last ticket that is given (own rule).
const GREATEST_TICKET: u64 = 9_223_372_036_854_775_807;

/// The call slots of a group, which count from 1, and the last ticket that was given. The free, the
/// waiting and the told slots are three sets, slot `slot` as bit `slot - 1`, beside the ticket, the
/// call and the car of each, and what programs see of the slots. No call of a book takes memory.
#[derive(Drop)]
pub struct CallBook {
    free: u64,
    waiting: u64,
    told: u64,
    tickets: [u64; 64],
    calls: [Call; 64],
    cars: [u8; 64],
    count: u8,
    given: u64,
    columns: Columns,
}

impl Model for CallBook {
    ghost use Rattle.group_spec.specs.Calls.{Calls};
    ghost use Rattle.group_spec.specs.Codes.{calls_code};

    ghost Value = { Calls };

    ghost coded = { calls_code };

    ghost use Rattle.group_calls.specs.Sets.{slots_of, AreSlots};

    ghost view = { λ b. record { slots = slots_of b; last_ticket = b.given } };

    ghost invariant = { AreSlots };
}

// The set of the first slots, so many.
fn first_slots(count: u8) -> u64
    requires { (1 ≤ count) × (count ≤ 64) }
    ensures { (k : ℕ) → bit_at result k ≡ flag (nat_lt k count) }
{
    u64::MAX >> (64 - count)
}

// Whether a bit is set.
fn has_bit(set: u64, bit: u8) -> bool
    requires { bit < 64 }
    ensures { result ≡ (bit_at set bit == 1) }
{
    (set >> bit) & 1 == 1
}

// The set with a bit set or cleared.
fn with_bit(set: u64, bit: u8, on: bool) -> u64
    requires { bit < 64 }
    ensures { IsWithBit 64 set bit on result }
{
    if on {
        set | 1 << bit
    } else {
        set & !(1 << bit)
    }
}

// The lowest bit of a set.
fn lowest_bit(set: u64) -> Option<u8>
    ensures found { IfSome result (λ bit. IsLowest set bit) }
    ensures none { IfNone result (set ≡ 0) }
{
    if set == 0 {
        return None;
    }
    Some(set.trailing_zeros() as u8)
}

// What is kept of a slot beside the sets.
fn kept_of(place: Slot) -> (u64, Call, u8)
    ensures { result ≡ kept_of place }
{
    match place {
        Slot::Free => (0, Call { from: 0, to: 0 }, 0),
        Slot::Waiting { ticket, call } => (ticket, call, 0),
        Slot::Told { ticket, call, car } => (ticket, call, car),
    }
}

// Whether a slot is free.
fn is_free(place: Slot) -> bool
    ensures { result ≡ is_free place }
{
    matches!(place, Slot::Free)
}

// Whether a call waits in a slot.
fn is_waiting(place: Slot) -> bool
    ensures { result ≡ is_waiting place }
{
    matches!(place, Slot::Waiting { .. })
}

// Whether a slot is told to a car.
fn is_told(place: Slot) -> bool
    ensures { result ≡ is_told place }
{
    matches!(place, Slot::Told { .. })
}

impl CallBook {
    /// All slots Free, and no ticket given (own rule).
    pub fn new(sizes: Sizes) -> CallBook
        requires cars { (1 ≤ sizes.cars) × (sizes.cars ≤ MOST_CARS) }
        requires floors { (2 ≤ sizes.floors) × (sizes.floors ≤ 16) }
        requires slots { (1 ≤ sizes.slots) × (sizes.slots ≤ 64) }
        ensures { result ≡ opening_calls sizes }
    {
        CallBook {
            free: first_slots(sizes.slots),
            waiting: 0,
            told: 0,
            tickets: [0; 64],
            calls: [Call { from: 0, to: 0 }; 64],
            cars: [0; 64],
            count: sizes.slots,
            given: 0,
            columns: Columns::new(sizes.slots),
        }
    }

    /// A copy.
    pub fn copied(&self) -> CallBook
        ensures { result ≡ self.now }
    {
        CallBook {
            free: self.free,
            waiting: self.waiting,
            told: self.told,
            tickets: self.tickets,
            calls: self.calls,
            cars: self.cars,
            count: self.count,
            given: self.given,
            columns: self.columns.copied(),
        }
    }

    /// How many slots there are.
    pub fn count(&self) -> u8
        ensures value { result ≡ length self.now.slots }
        ensures few { length self.now.slots ≤ 64 }
    {
        self.count
    }

    /// The slot at an index, which counts from 0.
    pub fn slot_of(&self, index: usize) -> Slot
        requires { index < length self.now.slots }
        ensures { slice_get self.now.slots index ≡ Some result }
    {
        if has_bit(self.free, index as u8) {
            return Slot::Free;
        }
        let ticket = self.tickets[index];
        let call = self.calls[index];
        if has_bit(self.waiting, index as u8) {
            return Slot::Waiting { ticket, call };
        }
        let car = self.cars[index];
        Slot::Told { ticket, call, car }
    }

    /// The slot of a number, which counts from 1.
    pub fn slot(&self, number: u8) -> Option<Slot>
        ensures value { result ≡ slot_at self.now.slots number }
        ensures within { IfSome result (λ _. (1 ≤ number) × (number ≤ length self.now.slots)) }
    {
        let index = number.checked_sub(1)?;
        if index >= self.count() {
            return None;
        }
        Some(self.slot_of(usize::from(index)))
    }

    /// The slots, slot 1 first.
    pub fn slots(&self) -> Bounded<Slot, SLOT_PLACES>
        ensures value { result ≡ self.now.slots }
        ensures few { length self.now.slots ≤ 64 }
    {
        let mut slots = Bounded::new();
        for index in 0..usize::from(self.count()) {
            slots.push(self.slot_of(index));
        }
        slots
    }

    /// What programs see of the slots, and their tickets.
    pub fn columns(&self) -> &Columns
        ensures { result.now ≡ shown_of self.now.slots }
    {
        &self.columns
    }

    /// The last ticket that was given, 0 before the first.
    pub fn last_ticket(&self) -> u64
        ensures value { result ≡ self.now.last_ticket }
        ensures bounded { self.now.last_ticket ≤ greatest_ticket }
    {
        self.given
    }

    // The number of the lowest Free slot.
    fn lowest_free(&self) -> Option<u8>
        ensures number { result ≡ lowest_free_from 1 self.now.slots }
        ensures within { IfSome result (λ slot. (1 ≤ slot) × (slot ≤ length self.now.slots)) }
    {
        let bit = lowest_bit(self.free)?;
        Some(bit + 1)
    }

    /// Replaces the slot of a number.
    pub fn put(&mut self, slot: u8, place: Slot)
        requires { (1 ≤ slot) × (slot ≤ length self.old.slots) }
        ensures slots { self.new.slots ≡ with_slot self.old.slots slot place }
        ensures ticket { self.new.last_ticket ≡ self.old.last_ticket }
    {
        let bit = slot - 1;
        self.free = with_bit(self.free, bit, is_free(place));
        self.waiting = with_bit(self.waiting, bit, is_waiting(place));
        self.told = with_bit(self.told, bit, is_told(place));
        let (ticket, call, car) = kept_of(place);
        let index = usize::from(bit);
        self.tickets[index] = ticket;
        self.calls[index] = call;
        self.cars[index] = car;
        self.columns.set(index, place);
    }

    /// The last ticket that was given is this one.
    pub fn give(&mut self, last: u64)
        requires { last ≤ greatest_ticket }
        ensures slots { self.new.slots ≡ self.old.slots }
        ensures ticket { self.new.last_ticket ≡ last }
    {
        self.given = last;
    }

    /// Enters a call into the lowest Free slot, under the next ticket: 1 first, then always 1 more.
    /// The call is Kept, and nothing changes, where no slot is Free or ticket 9223372036854775807
    /// was given (own rule).
    #[tactic(auto, unfolding(group_spec::specs::Calls::enter))]
    pub fn enter(&mut self, call: Call) -> Entering
        ensures value { enter self.old call ≡ (self.new, result) }
        ensures kept { result ≡ Entering.Kept → self.new ≡ self.old }
    {
        if self.given == GREATEST_TICKET {
            return Entering::Kept;
        }
        let Some(slot) = self.lowest_free() else {
            return Entering::Kept;
        };
        let ticket = self.given + 1;
        self.put(slot, Slot::Waiting { ticket, call });
        self.given = ticket;
        Entering::Done { slot, ticket }
    }

    /// Tells the call in a slot to a car. It is Done exactly where the slot waits under this ticket,
    /// NoSlot where no slot has this number, and otherwise Stale (own rule).
    #[tactic(auto, unfolding(group_spec::specs::Calls::tell))]
    pub fn tell(&mut self, slot: u8, ticket: u64, car: u8) -> Answer
        ensures value { tell self.old slot ticket car ≡ (self.new, result) }
        ensures only_done { result ≢ Answer.Done → self.new ≡ self.old }
    {
        let Some(place) = self.slot(slot) else {
            return Answer::NoSlot;
        };
        match place {
            Slot::Waiting {
                ticket: waiting,
                call,
            } if waiting == ticket => {
                self.put(slot, Slot::Told { ticket, call, car });
                Answer::Done
            }
            _ => Answer::Stale,
        }
    }

    /// Frees a slot whose call a car served. It is Done exactly where the slot is told to this car
    /// under this ticket, NotYours where it is told to another car under it, NoSlot where no slot
    /// has this number, and otherwise Stale (own rule).
    #[tactic(auto, unfolding(group_spec::specs::Calls::serve))]
    pub fn serve(&mut self, slot: u8, ticket: u64, car: u8) -> Answer
        ensures value { serve self.old slot ticket car ≡ (self.new, result) }
        ensures only_done { result ≢ Answer.Done → self.new ≡ self.old }
    {
        let Some(place) = self.slot(slot) else {
            return Answer::NoSlot;
        };
        match place {
            Slot::Told {
                ticket: told,
                car: owner,
                ..
            } if told == ticket => {
                if owner != car {
                    return Answer::NotYours;
                }
                self.put(slot, Slot::Free);
                Answer::Done
            }
            _ => Answer::Stale,
        }
    }
}
