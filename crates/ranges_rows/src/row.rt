// A row of ranges, in two words each while these do.

ghost use Rattle.std.specs.Prelude.{◌≡◌, ◌<◌, ◌≤◌, length, slice_get, slice_set, IfOk};
ghost use Rattle.std.specs.Prelude.{vec_capacity};
ghost use Rattle.ranges_rows.specs.Ranges.{row_joined, widened, ranges_of};

use crate::joining::join_words;
use crate::wide::{join_wide, widen};
use crate::words::{Ends, copy_of, narrowed, put, range_in};
use ranges_interval::Interval;
use std::alloc::{AllocError, Global};
use std::marker::Model;

/// A range for each number. Contracts see the ranges, and nothing of how they are kept.
pub struct Row {
    words: Vec<i32>,
    // All ranges, as soon as one has no words; until then none, with room for all.
    wide: Vec<Interval>,
}

impl Model for Row {
    ghost use Rattle.std.specs.Prelude.{List, ◌≤◌, length, vec_capacity};
    ghost use Rattle.ranges_interval.specs.declared.Interval.{Interval};
    ghost use Rattle.ranges_rows.specs.Ranges.{widened, ranges_of};

    ghost Value = { List Interval };

    ghost view = { λ r. ranges_of r.words.items r.wide.items };

    ghost invariant = { λ r. length (widened r.words.items) ≤ vec_capacity r.wide };
}

// Written by hand, since who drops a type whose drop is derived proves the drop of each type inside again.
impl Drop for Row {
    fn drop(self) {
        let Row {
            words: _words,
            wide: _wide,
        } = self;
    }
}

// Another range for a number.
#[tactic(auto, using(crate::proofs::Widened::set_view, crate::proofs::Widened::set_room))]
fn set_in(words: &mut Vec<i32>, wide: &mut Vec<Interval>, number: usize, range: Interval)
    requires inside { number < length (ranges_of words.old.items wide.old.items) }
    requires room { length (widened words.old.items) ≤ vec_capacity wide.old }
    ensures ranges { ranges_of words.new.items wide.new.items
        ≡ slice_set (ranges_of words.old.items wide.old.items) number range }
    ensures room { length (widened words.new.items) ≤ vec_capacity wide.new }
{
    if wide.is_empty() {
        if let Some(ends) = Ends::of(range) {
            put(words, number, ends);
            return;
        }
        widen(words.as_slice(), wide);
    }
    wide[number] = range;
}

// Each range with that of the same number.
#[tactic(auto, using(crate::proofs::Widened::joined_view, crate::proofs::Widened::joined_room))]
fn join_in(words: &mut Vec<i32>, wide: &mut Vec<Interval>, other: &[i32], wide_other: &[Interval])
    requires long { length (ranges_of words.old.items wide.old.items)
        ≡ length (ranges_of other.now wide_other.now) }
    requires room { length (widened words.old.items) ≤ vec_capacity wide.old }
    ensures ranges { ranges_of words.new.items wide.new.items
        ≡ row_joined (ranges_of words.old.items wide.old.items)
        (ranges_of other.now wide_other.now) }
    ensures room { length (widened words.new.items) ≤ vec_capacity wide.new }
{
    if wide.is_empty() {
        if wide_other.is_empty() && words.len() == other.len() {
            join_words(words.as_mut_slice(), other);
            return;
        }
        widen(words.as_slice(), wide);
    }
    join_wide(wide.as_mut_slice(), other, wide_other);
}

// A row in words.
#[tactic(auto, using(crate::proofs::Widened::widened_length))]
fn of_words(alloc: Global, words: Vec<i32>) -> Result<Row, AllocError>
    ensures { IfOk result (λ row. row ≡ widened words.items) }
{
    let wide = Vec::with_capacity(alloc, words.len() / 2)?;
    Ok(Row { words, wide })
}

// A row in its wide form.
fn of_wide(alloc: Global, ranges: &[Interval]) -> Result<Row, AllocError>
    ensures { IfOk result (λ row. row ≡ ranges.now) }
{
    let mut wide = Vec::new(alloc);
    wide.extend_from_slice(ranges)?;
    Ok(Row {
        words: Vec::new(alloc),
        wide,
    })
}

impl Row {
    /// A row of these ranges.
    pub fn of(alloc: Global, ranges: &[Interval]) -> Result<Row, AllocError>
        ensures { IfOk result (λ row. row ≡ ranges.now) }
    {
        match narrowed(alloc, ranges)? {
            Some(words) => of_words(alloc, words),
            None => of_wide(alloc, ranges),
        }
    }

    /// How many ranges there are.
    #[inline(always)]
    #[tactic(auto, using(crate::proofs::Widened::widened_length))]
    pub fn len(&self) -> usize
        ensures { result ≡ length self.now }
    {
        if self.wide.is_empty() {
            self.words.len() / 2
        } else {
            self.wide.len()
        }
    }

    /// The range of a number, if there is one.
    #[inline(always)]
    #[tactic(auto, using(crate::proofs::Widened::widened_length, crate::proofs::Widened::get_past))]
    pub fn get(&self, number: usize) -> Option<Interval>
        ensures { result ≡ slice_get self.now number }
    {
        if !self.wide.is_empty() {
            return self.wide.get(number).copied();
        }
        if number < self.words.len() / 2 {
            Some(range_in(self.words.as_slice(), number))
        } else {
            None
        }
    }

    /// Replaces the range of a number.
    pub fn set(&mut self, number: usize, range: Interval)
        requires { number < length self.old }
        ensures { self.new ≡ slice_set self.old number range }
    {
        set_in(&mut self.words, &mut self.wide, number, range);
    }

    /// Joins each range with that of the same number.
    pub fn join(&mut self, other: &Row)
        requires { length self.old ≡ length other.now }
        ensures { self.new ≡ row_joined self.old other.now }
    {
        join_in(
            &mut self.words,
            &mut self.wide,
            other.words.as_slice(),
            other.wide.as_slice(),
        );
    }

    /// A copy of the ranges, on memory of its own.
    pub fn try_copy(&self, alloc: Global) -> Result<Row, AllocError>
        ensures { IfOk result (λ row. row ≡ self.now) }
    {
        if self.wide.is_empty() {
            of_words(alloc, copy_of(alloc, self.words.as_slice())?)
        } else {
            of_wide(alloc, self.wide.as_slice())
        }
    }
}
