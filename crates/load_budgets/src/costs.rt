// The greatest costs of units, round by round: each round with callees one level deeper.

ghost use Rattle.std.specs.Prelude.{◌≡◌, ◌↔◌, IfOk, map, true};
ghost use Rattle.load_budgets.specs.Rounds.{unit_ways, unit_cost, costs_by, rounds};

use crate::table::{Rest, rest_up, rests};
use crate::ways::{Way, ways};
use base_lists::Items;
use load_scope::Scoped;
use std::alloc::{AllocError, Global};

// How deep units may use one another (own rule).
const DEPTH: usize = 16;

/// The ways of all units.
pub fn all_ways(alloc: Global, names: &Scoped) -> Result<Items<Items<Way>>, AllocError>
    ensures { IfOk result (λ all. all ≡ map (unit_ways names.now) names.now.units) }
{
    let units = names.config().units.as_slice();
    let mut all = Items::new(alloc);
    'units: for at in 0..units.len() {
        all.push(ways(alloc, names, at, &units[at])?)?;
    }
    Ok(all)
}

/// The greatest cost of each unit, where units use one another at most 16 deep.
pub fn longest(alloc: Global, all: &Items<Items<Way>>) -> Result<Items<u32>, AllocError>
    ensures { IfOk result (λ costs. costs ≡ rounds 16 all.now) }
{
    let mut costs = Items::new(alloc);
    'rounds: for _round in 0..DEPTH {
        let more = costs_by(alloc, all, &costs)?;
        if is_same(more.as_slice(), costs.as_slice()) {
            return Ok(more);
        }
        costs = more;
    }
    Ok(costs)
}

// Whether a round changed no cost, so that no later one does.
fn is_same(more: &[u32], costs: &[u32]) -> bool
    ensures { (result ≡ true) ↔ (more.now ≡ costs.now) }
{
    more == costs
}

// The costs of units by those of the units that they call.
fn costs_by(
    alloc: Global,
    all: &Items<Items<Way>>,
    costs: &Items<u32>,
) -> Result<Items<u32>, AllocError>
    ensures { IfOk result (λ more. more ≡ costs_by all.now costs.now) }
{
    let mut more = Items::new(alloc);
    'all: for ways in all.as_slice() {
        more.push(unit_cost(alloc, ways, costs)?)?;
    }
    Ok(more)
}

// The cost of a unit.
fn unit_cost(alloc: Global, ways: &Items<Way>, costs: &Items<u32>) -> Result<u32, AllocError>
    ensures { IfOk result (λ cost. cost ≡ unit_cost costs.now ways.now) }
{
    let rests = rests(alloc, ways.as_slice(), costs.as_slice())?;
    Ok(rest_up(rests.as_slice(), 0).cost)
}
