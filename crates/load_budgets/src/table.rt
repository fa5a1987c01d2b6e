// The greatest costs from each place of a body on, by a table that is filled from the end.

ghost use Rattle.std.specs.Prelude.{◌≡◌, ◌+◌, ◌<◌, ◌++◌, ◌∷◌, [], length, slice_get, Some, IfOk};
ghost use Rattle.load_budgets.specs.declared.ways.Way.{Way};
ghost use Rattle.load_budgets.specs.Tables.{capped, number_at, callee_cost, rest_up, dearer, passing, jumping, way_rest, rests_above};

use crate::ways::Way;
use base_lists::Items;
use il_syntax::tree::Condition;
use std::alloc::{AllocError, Global};

/// The most that a unit may cost (own rule). No cost that is kept is greater than one more.
pub const MOST: u32 = 1_000_000;

/// What a path costs at most from a place on, and where it goes next.
#[derive(Clone, Copy)]
pub struct Rest {
    pub cost: u32,
    pub next: Option<usize>,
}

// Where there is no place.
const NO_REST: Rest = Rest {
    cost: 0,
    next: None,
};

// The sum of costs.
fn sum(first: u32, second: u32) -> u32
    ensures { result ≡ capped (first + second) }
{
    first.saturating_add(second).min(MOST + 1)
}

/// A number of a list.
pub fn number_at(costs: &[u32], at: usize) -> u32
    ensures { result ≡ number_at costs.now at }
{
    match costs.get(at) {
        Some(cost) => *cost,
        None => 0,
    }
}

// What an instruction costs, with the own unit that it runs.
fn callee_cost(costs: &[u32], callee: Option<usize>) -> u32
    ensures { result ≡ callee_cost costs.now callee }
{
    match callee {
        Some(number) => sum(1, number_at(costs, number)),
        None => 1,
    }
}

/// The rest so many places after the last that was added.
pub fn rest_up(rests: &[Rest], up: usize) -> Rest
    ensures { result ≡ rest_up rests.now up }
{
    if up < rests.len() {
        rests[rests.len() - 1 - up]
    } else {
        NO_REST
    }
}

// Of two ways on, the dearer; where both cost the same, the first.
fn dearer(first: Rest, second: Rest) -> Rest
    ensures { result ≡ dearer first second }
{
    if first.cost < second.cost {
        second
    } else {
        first
    }
}

// A path that goes on at the next place.
fn passing(own: u32, rests: &[Rest], next: usize) -> Rest
    ensures { result ≡ passing own rests.now next }
{
    Rest {
        cost: sum(own, rest_up(rests, 0).cost),
        next: Some(next),
    }
}

// A path that jumps.
fn jumping(rests: &[Rest], next: usize, to: Option<usize>) -> Rest
    ensures { result ≡ jumping rests.now next to }
{
    match to {
        Some(place) => Rest {
            cost: sum(1, rest_up(rests, place.saturating_sub(next)).cost),
            next: Some(place),
        },
        None => NO_REST,
    }
}

// The rest of an instruction, by those of the places after it.
fn way_rest(costs: &[u32], rests: &[Rest], next: usize, way: Way) -> Rest
    ensures { result ≡ way_rest costs.now rests.now next way }
{
    match way {
        Way::Next { callee } => passing(callee_cost(costs, callee), rests, next),
        Way::Jump {
            condition: Condition::Always,
            to,
        } => jumping(rests, next, to),
        Way::Jump { to, .. } => dearer(passing(1, rests, next), jumping(rests, next, to)),
        Way::Return {
            condition: Condition::Always,
        } => Rest {
            cost: 1,
            next: None,
        },
        Way::Return { .. } => dearer(
            passing(1, rests, next),
            Rest {
                cost: 1,
                next: None,
            },
        ),
    }
}

/// The rests of a body's places, the last place first: the return after the last instruction.
pub fn rests(alloc: Global, ways: &[Way], costs: &[u32]) -> Result<Items<Rest>, AllocError>
    ensures { IfOk result (λ rests. rests ≡ rests_above costs.now 0 ways.now) }
{
    let mut rests = Items::new(alloc);
    rests.push(Rest {
        cost: 1,
        next: None,
    })?;
    'ways: for passed in 0..ways.len() {
        let at = ways.len() - 1 - passed;
        push_rest(&mut rests, ways, costs, at)?;
    }
    Ok(rests)
}

// Adds the rest of a place to those of the places after it.
fn push_rest(
    rests: &mut Items<Rest>,
    ways: &[Way],
    costs: &[u32],
    at: usize,
) -> Result<(), AllocError>
    requires { at < length ways.now }
    ensures { IfOk result (λ _. (way : Way) → slice_get ways.now at ≡ Some way → rests.new
        ≡ rests.old ++ way_rest costs.now rests.old (at + 1) way ∷ []) }
{
    let rest = way_rest(costs, rests.as_slice(), at + 1, ways[at]);
    rests.push(rest)
}
