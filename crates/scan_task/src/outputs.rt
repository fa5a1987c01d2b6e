// What a scan leaves of its outputs: the wishes of a car, and the cars that the group assigns.

ghost use Rattle.std.specs.Prelude.{◌≡◌, ◌<◌, ◌≤◌, ◌≤ℤ◌, pos, nat_abs, codes, length, get_or, Some, false, IsTrue, All};
ghost use Rattle.il_semantics.specs.declared.value.Value.TheVariants.{Boolean, Integer};
ghost use Rattle.base_maps.specs.NameMap.{get};
ghost use Rattle.group_spec.specs.Image.{sizes_of};
ghost use Rattle.group_spec.specs.Snapshot.{whole_of, truth_of, motor_of, wishes_of, assigned};
ghost use Rattle.scan_task.specs.Scanning.{value_at, IsScanOf};
ghost use Rattle.scan_task.specs.Ran.{stands};

use crate::verified::Verified;
use base_lists::Bounded;
use group_spec::image::{Motor, SLOT_PLACES, Wishes};
use load_slots::flat::Cell;
use scan_loop::ScanState;
use scan_step::rows::Rows;

// The motor of a number.
fn motor_of(number: i64) -> Motor
    ensures { result ≡ motor_of number }
{
    if number > 0 {
        Motor::Up
    } else if number < 0 {
        Motor::Down
    } else {
        Motor::Still
    }
}

// The car or the call slot of a number, 0 for none.
fn one_of(number: i64) -> u8
    requires least { pos 0 ≤ℤ number }
    requires most { number ≤ℤ pos 64 }
    ensures { result ≡ nat_abs number }
{
    number as u8
}

// The number at a slot of these cells that keeps one.
fn number_at(rows: &Rows, cells: &[Cell], slot: usize) -> i64
    requires there { slot < length rows.now.numbers }
    requires number { value_at cells.now rows.now slot
        ≡ Some (Integer (get_or rows.now.numbers slot (pos 0))) }
    ensures { result ≡ whole_of (value_at cells.now rows.now slot) }
{
    let _cells = cells;
    rows.numbers[slot]
}

// The Boolean at a slot of these cells that keeps one.
fn flag_at(rows: &Rows, cells: &[Cell], slot: usize) -> bool
    requires there { slot < length rows.now.flags }
    requires flag { value_at cells.now rows.now slot
        ≡ Some (Boolean (get_or rows.now.flags slot false)) }
    ensures { result ≡ truth_of (value_at cells.now rows.now slot) }
{
    let _cells = cells;
    rows.flags[slot]
}

// The car or the call slot that a slot of rows names, 0 for none.
fn named_at(rows: &Rows, cells: &[Cell], slot: usize) -> u8
    requires there { slot < length rows.now.numbers }
    requires number { value_at cells.now rows.now slot
        ≡ Some (Integer (get_or rows.now.numbers slot (pos 0))) }
    requires least { pos 0 ≤ℤ whole_of (value_at cells.now rows.now slot) }
    requires most { whole_of (value_at cells.now rows.now slot) ≤ℤ pos 64 }
    ensures { result ≡ nat_abs (whole_of (value_at cells.now rows.now slot)) }
{
    one_of(number_at(rows, cells, slot))
}

// MOTOR, OPEN and SERVE, as a car's scan left them. Their slots are the last.
#[tactic(auto, unfolding(group_spec::specs::Snapshot::wishes_of))]
pub fn wishes(verified: &Verified, car: u8, scan: &ScanState) -> Wishes
    requires car { 1 ≤ car }
    requires scan { IsScanOf verified.now.config car scan.now }
    ensures { result ≡ wishes_of (stands verified.now.config car scan.now).values }
{
    let cells = verified.task_code(car).cells();
    let rows = &scan.rows;
    let first = cells.len() - 3;
    Wishes {
        motor: motor_of(number_at(rows, cells, first)),
        opens: flag_at(rows, cells, first + 1),
        serve: named_at(rows, cells, first + 2),
    }
}

// ASSIGN, as GROUP's scan left it: a car for each call slot, 0 for none.
pub fn assigned(verified: &Verified, scan: &ScanState) -> Bounded<u8, SLOT_PLACES>
    requires scan { IsScanOf verified.now.config 0 scan.now }
    ensures { result
        ≡ assigned (sizes_of verified.now.config).slots
        (stands verified.now.config 0 scan.now).values }
{
    let count = verified.sizes().slots as usize;
    let cells = verified.task_code(0).cells();
    let rows = &scan.rows;
    let first = cells.len() - count;
    let mut cars = Bounded::new();
    'slots: for slot in 0..count {
        cars.push(named_at(rows, cells, first + slot));
    }
    cars
}

// Whether a number is 0.
#[inline(always)]
fn is_zero(number: i64) -> bool
    ensures { IsTrue result → number ≡ pos 0 }
{
    number == 0
}

// Whether all of these are 0. All are looked at, and so the machine takes many in a step.
fn are_zeros(numbers: &[i64]) -> bool
    ensures { IsTrue result → All (λ z. z ≡ pos 0) numbers.now }
{
    let mut zeros = true;
    'numbers: for number in numbers {
        zeros &= is_zero(*number);
    }
    zeros
}

// Whether GROUP's scan has left that no car is assigned to a call slot.
pub fn assigns_none(verified: &Verified, scan: &ScanState) -> bool
    requires scan { IsScanOf verified.now.config 0 scan.now }
    ensures { IsTrue result
        → All (λ car. car ≡ 0)
        (assigned (sizes_of verified.now.config).slots
        (stands verified.now.config 0 scan.now).values) }
{
    let count = verified.sizes().slots as usize;
    let cells = verified.task_code(0).cells();
    let (_, behind) = scan.rows.numbers.split_at(cells.len() - count);
    are_zeros(behind)
}
