// Units from which no chain of so many uses leads, since others are on the way.

ghost use Rattle.std.specs.Prelude.{◌≡◌, ◌<◌, ◌≤◌, ◌++◌, ◌∷◌, [], true, length, slice_set, IfOk, IfSome, get_or};
ghost use Rattle.load_order.specs.Related.{tabulate};
ghost use Rattle.load_order.specs.Used.{is_among};
ghost use Rattle.load_order.specs.Chained.{are_among, merged, without};

use crate::uses::is_among;
use base_lists::Items;
use std::alloc::{AllocError, Global};

/// What is known of a unit: so many uses don't lead on from it to others than these.
#[derive(Drop)]
pub struct DeadEnd {
    /// How many uses don't.
    pub left: usize,
    /// The units that are on the way.
    pub on_way: Items<usize>,
}

/// The dead ends that were found, for each unit.
pub type DeadEnds = Vec<Items<DeadEnd>>;

/// No dead end of any unit.
pub fn no_ends(alloc: Global, count: usize) -> Result<DeadEnds, AllocError>
    ensures { IfOk result (λ ends. ends.items ≡ tabulate count (λ _. [])) }
{
    let mut ends = Vec::new(alloc);
    for _unit in 0..count {
        ends.push(Items::new(alloc))?;
    }
    Ok(ends)
}

// Whether each number of a list is one of another.
fn are_among(numbers: &[usize], way: &[usize]) -> bool
    ensures { result ≡ are_among numbers.now way.now }
{
    for one in numbers {
        if !is_among(way, *one) {
            return false;
        }
    }
    true
}

/// Adds those numbers that are not there.
pub fn merge(numbers: &mut Items<usize>, more: &[usize]) -> Result<(), AllocError>
    ensures { IfOk result (λ _. numbers.new ≡ merged numbers.old more.now) }
{
    for one in more {
        if !is_among(numbers.as_slice(), *one) {
            numbers.push(*one)?;
        }
    }
    Ok(())
}

/// The numbers but one.
pub fn without(alloc: Global, one: usize, numbers: &[usize]) -> Result<Items<usize>, AllocError>
    ensures { IfOk result (λ r. r ≡ without one numbers.now) }
{
    let mut others = Items::new(alloc);
    for number in numbers {
        if *number != one {
            others.push(*number)?;
        }
    }
    Ok(others)
}

/// The place of a dead end that is met with these units on the way. Newer ones are looked at first.
pub fn met(ends: &[DeadEnd], left: usize, way: &[usize]) -> Option<usize>
    ensures { IfSome result (λ i. i < length ends.now
        × ((d : _) → ((get_or ends.now i d).left ≤ left)
        × (are_among (get_or ends.now i d).on_way way.now ≡ true))) }
{
    for newer in 0..ends.len() {
        let at = ends.len() - 1 - newer;
        let end = &ends[at];
        if end.left <= left && are_among(end.on_way.as_slice(), way) {
            return Some(at);
        }
    }
    None
}

/// Notes a dead end of a unit.
pub fn note(ends: &mut DeadEnds, unit: usize, end: DeadEnd) -> Result<(), AllocError>
    requires { unit < length ends.old.items }
    ensures { IfOk result (λ _. (d : _) → ends.new.items
        ≡ slice_set ends.old.items unit (get_or ends.old.items unit d ++ end ∷ [])) }
{
    ends[unit].push(end)
}
