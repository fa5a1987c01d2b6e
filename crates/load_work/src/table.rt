// The most work from each place of a body on, by a table that is filled from the end.

ghost use Rattle.std.specs.Prelude.{◌≡◌, ◌+◌, ◌<◌, ◌++◌, ◌∷◌, [], length, slice_get, Some, IfOk};
ghost use Rattle.load_work.specs.declared.weights.Weighed.{Weighed};
ghost use Rattle.load_work.specs.Table.{called_work, own_work, left_up, passing, jumping, way_work, lefts_above};

use crate::sizes::{number_at, sum};
use crate::weights::Weighed;
use base_lists::Items;
use il_syntax::tree::Condition;
use load_budgets::ways::Way;
use std::alloc::{AllocError, Global};

// The work of the own unit that an instruction runs.
fn called_work(works: &[usize], callee: Option<usize>) -> usize
    ensures { result ≡ called_work works.now callee }
{
    match callee {
        Some(number) => number_at(works, number),
        None => 0,
    }
}

// The work of an instruction, with that of the own unit that it runs.
fn own_work(works: &[usize], moves: usize, callee: Option<usize>) -> usize
    ensures { result ≡ own_work works.now moves callee }
{
    sum(sum(1, moves), called_work(works, callee))
}

/// What is left so many places after the last that was added.
pub fn left_up(lefts: &[usize], up: usize) -> usize
    ensures { result ≡ left_up lefts.now up }
{
    if up < lefts.len() {
        lefts[lefts.len() - 1 - up]
    } else {
        0
    }
}

// Of a path that goes on at the next place.
fn passing(own: usize, lefts: &[usize]) -> usize
    ensures { result ≡ passing own lefts.now }
{
    sum(own, left_up(lefts, 0))
}

// Of a path that jumps.
fn jumping(lefts: &[usize], next: usize, to: Option<usize>) -> usize
    ensures { result ≡ jumping lefts.now next to }
{
    match to {
        Some(place) => sum(1, left_up(lefts, place.saturating_sub(next))),
        None => 0,
    }
}

// What is left at an instruction, by what is left at the places after it.
fn way_work(works: &[usize], lefts: &[usize], next: usize, one: Weighed) -> usize
    ensures { result ≡ way_work works.now lefts.now next one.moves one.way }
{
    match one.way {
        Way::Next { callee } => passing(own_work(works, one.moves, callee), lefts),
        Way::Jump {
            condition: Condition::Always,
            to,
        } => jumping(lefts, next, to),
        Way::Jump { to, .. } => passing(1, lefts).max(jumping(lefts, next, to)),
        Way::Return {
            condition: Condition::Always,
        } => 1,
        Way::Return { .. } => passing(1, lefts).max(1),
    }
}

/// What is left at a body's places, the last place first: at the return after the last instruction 1.
pub fn lefts(alloc: Global, all: &[Weighed], works: &[usize]) -> Result<Items<usize>, AllocError>
    ensures { IfOk result (λ lefts. lefts ≡ lefts_above works.now 0 all.now) }
{
    let mut lefts = Items::new(alloc);
    lefts.push(1)?;
    'ways: for passed in 0..all.len() {
        let at = all.len() - 1 - passed;
        push_left(&mut lefts, all, works, at)?;
    }
    Ok(lefts)
}

// Adds what is left at a place to what is left at those after it.
fn push_left(
    lefts: &mut Items<usize>,
    all: &[Weighed],
    works: &[usize],
    at: usize,
) -> Result<(), AllocError>
    requires { at < length all.now }
    ensures { IfOk result (λ _. (one : Weighed) → slice_get all.now at ≡ Some one → lefts.new
        ≡ lefts.old ++ way_work works.now lefts.old (at + 1) one.moves one.way ∷ []) }
{
    let left = way_work(works, lefts.as_slice(), at + 1, all[at]);
    lefts.push(left)
}
