// Ranges in their wide form.

ghost use Rattle.std.specs.Prelude.{◌≡◌, ◌<◌, ◌≤◌, [], length, get_or};
ghost use Rattle.std.specs.Prelude.{vec_capacity};
ghost use Rattle.ranges_interval.specs.Interval.{interval_join};
ghost use Rattle.ranges_interval.specs.declared.Interval.{Interval};
ghost use Rattle.ranges_rows.specs.Ranges.{row_joined, widened, ranges_of};

use crate::words::range_in;
use ranges_interval::Interval;

/// The hull of two ranges.
pub fn hull(first: Interval, second: Interval) -> Interval
    ensures { result ≡ interval_join first second }
{
    Interval {
        lo: first.lo.min(second.lo),
        hi: first.hi.max(second.hi),
    }
}

// The range of a number.
fn range_at(words: &[i32], wide: &[Interval], number: usize) -> Interval
    requires { number < length (ranges_of words.now wide.now) }
    ensures { (d : Interval) → result ≡ get_or (ranges_of words.now wide.now) number d }
{
    if wide.is_empty() {
        range_in(words, number)
    } else {
        wide[number]
    }
}

/// Joins all wide ranges.
pub fn join_wide(row: &mut [Interval], words: &[i32], wide: &[Interval])
    requires { length row.old ≡ length (ranges_of words.now wide.now) }
    ensures { row.new ≡ row_joined row.old (ranges_of words.now wide.now) }
{
    for number in 0..row.len() {
        row[number] = hull(row[number], range_at(words, wide, number));
    }
}

/// Writes down all ranges in their wide form, for which there is room.
#[tactic(auto, using(crate::proofs::Widened::widened_length))]
pub fn widen(words: &[i32], wide: &mut Vec<Interval>)
    requires empty { wide.old.items ≡ [] }
    requires room { length (widened words.now) ≤ vec_capacity wide.old }
    ensures ranges { wide.new.items ≡ widened words.now }
    ensures room { vec_capacity wide.old ≤ vec_capacity wide.new }
{
    for number in 0..words.len() / 2 {
        let _ = wide.push(range_in(words, number));
    }
}
