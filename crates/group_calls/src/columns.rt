// What programs see of the call slots.

ghost use Rattle.std.specs.Prelude.{◌≡◌, ◌+◌, ◌*◌, ◌<◌, ◌≤◌, List, length, set, replicate, pos};
ghost use Rattle.group_spec.specs.declared.calls.Slot.{Slot as SlotOf};
ghost use Rattle.group_spec.specs.declared.calls.Slot.TheVariants.{Free};
ghost use Rattle.group_spec.specs.Calls.{ticket_of};
ghost use Rattle.group_spec.specs.Snapshot.{waits, from_of, to_of, car_of};
ghost use Rattle.group_calls.specs.Columns.{shown_of};

use group_spec::calls::Slot;
use std::marker::Model;

/// CALLWAITS, CALLFROM, CALLTO and CALLCAR of all call slots, column after column, as a scan's rows of numbers and of Booleans keep them,
/// and the tickets of the slots. A scan's start copies each as a whole.
#[derive(Drop)]
pub struct Columns {
    numbers: [i64; 256],
    flags: [bool; 256],
    tickets: [Option<u64>; 64],
    count: u8,
}

impl Model for Columns {
    ghost use Rattle.std.specs.Prelude.{ℕ, ◌*◌, ◌≤◌, Bool, List, take, ℤ, Option};

    ghost Value = { List ℤ × (List Bool × List (Option ℕ)) };

    ghost view = { λ c. (take (4 * c.count) c.numbers, (take (4 * c.count) c.flags, take c.count c.tickets)) };

    ghost invariant = { λ c. c.count ≤ 64 };
}

// CALLWAITS of a slot.
fn waits(place: Slot) -> bool
    ensures { result ≡ waits place }
{
    matches!(place, Slot::Waiting { .. })
}

// CALLFROM of a slot.
fn from_of(place: Slot) -> i64
    ensures { result ≡ pos (from_of place) }
{
    match place {
        Slot::Free => 0,
        Slot::Waiting { call, .. } => call.from as i64,
        Slot::Told { call, .. } => call.from as i64,
    }
}

// CALLTO of a slot.
fn to_of(place: Slot) -> i64
    ensures { result ≡ pos (to_of place) }
{
    match place {
        Slot::Free => 0,
        Slot::Waiting { call, .. } => call.to as i64,
        Slot::Told { call, .. } => call.to as i64,
    }
}

// CALLCAR of a slot.
fn car_of(place: Slot) -> i64
    ensures { result ≡ pos (car_of place) }
{
    match place {
        Slot::Told { car, .. } => car as i64,
        _ => 0,
    }
}

// The ticket of a slot that isn't Free.
fn ticket_of(place: Slot) -> Option<u64>
    ensures { result ≡ ticket_of place }
{
    match place {
        Slot::Free => None,
        Slot::Waiting { ticket, .. } => Some(ticket),
        Slot::Told { ticket, .. } => Some(ticket),
    }
}

// Writes the items of a slot into four columns of so many items.
fn write_four<T: Copy>(
    row: &mut [T],
    count: usize,
    index: usize,
    first: T,
    second: T,
    third: T,
    fourth: T,
)
    requires few { count ≤ 64 }
    requires room { 4 * count ≤ length row.old }
    requires within { index < count }
    ensures { row.new ≡ set (set (set (set row.old index first) (count + index) second)
        (2 * count + index) third) (3 * count + index) fourth }
{
    row[index] = first;
    row[count + index] = second;
    row[2 * count + index] = third;
    row[3 * count + index] = fourth;
}

impl Columns {
    /// Those of so many Free slots.
    pub fn new(count: u8) -> Columns
        requires { count ≤ 64 }
        ensures { result ≡ shown_of (replicate count Free) }
    {
        Columns {
            numbers: [0; 256],
            flags: [false; 256],
            tickets: [None; 64],
            count,
        }
    }

    /// A copy.
    pub fn copied(&self) -> Columns
        ensures { result ≡ self.now }
    {
        Columns {
            numbers: self.numbers,
            flags: self.flags,
            tickets: self.tickets,
            count: self.count,
        }
    }

    /// Replaces the slot at an index, which counts from 0.
    pub fn set(&mut self, index: usize, place: Slot)
        requires { (slots : List SlotOf) × (self.old ≡ shown_of slots) × (index < length slots) }
        ensures { (slots : List SlotOf) → self.old ≡ shown_of slots → self.new
            ≡ shown_of (set slots index place) }
    {
        let count = usize::from(self.count);
        write_four(
            &mut self.numbers,
            count,
            index,
            0,
            from_of(place),
            to_of(place),
            car_of(place),
        );
        write_four(
            &mut self.flags,
            count,
            index,
            waits(place),
            false,
            false,
            false,
        );
        self.tickets[index] = ticket_of(place);
    }

    /// What the row of numbers keeps.
    pub fn numbers(&self) -> &[i64]
        ensures { result.now ≡ self.now.0 }
    {
        &self.numbers[..4 * usize::from(self.count)]
    }

    /// What the row of Booleans keeps.
    pub fn flags(&self) -> &[bool]
        ensures { result.now ≡ self.now.1.0 }
    {
        &self.flags[..4 * usize::from(self.count)]
    }

    /// The ticket of each slot that isn't Free.
    pub fn tickets(&self) -> &[Option<u64>]
        ensures { result.now ≡ self.now.1.1 }
    {
        &self.tickets[..usize::from(self.count)]
    }
}
