// What the units of a configuration cost.

ghost use Rattle.std.specs.Prelude.{◌≡◌, IfOk, map, length};
ghost use Rattle.il_statics.specs.Least.{IsLeast};
ghost use Rattle.load_budgets.specs.Rounds.{unit_ways};
ghost use Rattle.load_budgets.specs.Units.{AreOver, AreExact, kept_path};
ghost use Rattle.load_budgets.specs.Costs.{path_of};

use crate::fault::BudgetFault;
use crate::path::path;
use crate::table::{MOST, number_at, rests};
use crate::ways::Way;
use base_lists::Items;
use il_statics::{Found, earlier, fault_if};
use il_syntax::tree::Body;
use load_scope::Scoped;
use std::alloc::{AllocError, Global};

/// The first unit that costs too much.
pub fn too_long(names: &Scoped, costs: &Items<u32>) -> Option<Found<BudgetFault>>
    ensures { IsLeast result (AreOver names.now costs.now (length names.now.units)) }
{
    let units = names.config().units.as_slice();
    let mut found = None;
    for at in 0..units.len() {
        let unit = &units[at];
        let over = number_at(costs.as_slice(), at) > MOST;
        found = earlier(found, fault_if(over, BudgetFault::TooLong, unit.place));
    }
    found
}

/// The lines of a path of each unit.
pub fn unit_paths(
    alloc: Global,
    names: &Scoped,
    all: &Items<Items<Way>>,
    costs: &Items<u32>,
) -> Result<Items<Items<u32>>, AllocError>
    requires ways { all.now ≡ map (unit_ways names.now) names.now.units }
    requires exact { AreExact names.now costs.now }
    ensures { IfOk result (λ each. each ≡ map (path_of names.now) names.now.units) }
{
    let units = names.config().units.as_slice();
    let all = all.as_slice();
    let mut each = Items::new(alloc);
    'units: for at in 0..units.len() {
        each.push(unit_path(alloc, &units[at].body, &all[at], costs)?)?;
    }
    Ok(each)
}

// The lines of a unit's path.
fn unit_path(
    alloc: Global,
    body: &Body,
    ways: &Items<Way>,
    costs: &Items<u32>,
) -> Result<Items<u32>, AllocError>
    ensures { IfOk result (λ lines. lines ≡ kept_path body.now ways.now costs.now) }
{
    let rests = rests(alloc, ways.as_slice(), costs.as_slice())?;
    path(alloc, body, rests.as_slice())
}
