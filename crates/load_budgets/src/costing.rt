// What units and tasks cost at most: the greatest cost of their control paths, and the lines of a path of that cost.

ghost use Rattle.std.specs.Prelude.{◌≡◌, IfOk, IfErr, map};
ghost use Rattle.il_statics.specs.Faults.{IsRefusedBy, Declaring, Typing, Ordering, HasNoFault, Broken};
ghost use Rattle.il_semantics.specs.Paths.{longest};
ghost use Rattle.load_budgets.specs.Rounds.{unit_ways};
ghost use Rattle.load_budgets.specs.Units.{AreExact, task_cost};
ghost use Rattle.load_budgets.specs.Costs.{path_of, AreBudgets, ArePaths, IsTooLong};

use crate::Checked;
use crate::answer::{Budget, Path};
use crate::costs::{all_ways, longest};
use crate::tasks::task_costs;
use crate::units::{too_long, unit_paths};
use crate::ways::Way;
use base_lists::Items;
use il_statics::refusal;
use il_syntax::fault::Refusal;
use load_scope::Scoped;
use std::alloc::{AllocError, Global};

/// What each unit and each task costs at most, and a control path of that cost of each unit: 50 at the heading of the first unit
/// that costs more than 1000000 (own rule). Where both ways on cost the same, the path is the one that does not jump, return or call.
pub fn budget(alloc: Global, checked: &Checked) -> Result<(Budget, Path), Refusal>
    ensures budgets { IfOk result (λ r. AreBudgets checked.now r.0) }
    ensures paths { IfOk result (λ r. ArePaths checked.now r.1) }
    // The costs by the table of the definitions, by which the layers above say what they print.
    ensures costs { IfOk result (λ r. r.0.units ≡ map (longest checked.now) checked.now.units) }
    ensures lines { IfOk result (λ r. r.1.units ≡ map (path_of checked.now) checked.now.units) }
    ensures accepted { IfOk result (λ _. HasNoFault (IsTooLong checked.now)) }
    ensures refused { IfErr result (IsRefusedBy (IsTooLong checked.now)) }
{
    budgets(alloc, checked.names())
}

// The budgets of a configuration that breaks no rule of declarations, types and order.
fn budgets(alloc: Global, names: &Scoped) -> Result<(Budget, Path), Refusal>
    requires declared { HasNoFault (Broken Declaring names.now) }
    requires typed { HasNoFault (Broken Typing names.now) }
    requires ordered { HasNoFault (Broken Ordering names.now) }
    ensures budgets { IfOk result (λ r. AreBudgets names.now r.0) }
    ensures paths { IfOk result (λ r. ArePaths names.now r.1) }
    ensures costs { IfOk result (λ r. r.0.units ≡ map (longest names.now) names.now.units) }
    ensures lines { IfOk result (λ r. r.1.units ≡ map (path_of names.now) names.now.units) }
    ensures accepted { IfOk result (λ _. HasNoFault (IsTooLong names.now)) }
    ensures refused { IfErr result (IsRefusedBy (IsTooLong names.now)) }
{
    let all = all_ways(alloc, names)?;
    let costs = longest(alloc, &all)?;
    match too_long(names, &costs) {
        Some(found) => Err(refusal(found)),
        None => Ok(with_paths(alloc, names, &all, costs)?),
    }
}

// The costs of units, with those of tasks and with the paths.
fn with_paths(
    alloc: Global,
    names: &Scoped,
    all: &Items<Items<Way>>,
    costs: Items<u32>,
) -> Result<(Budget, Path), AllocError>
    requires ways { all.now ≡ map (unit_ways names.now) names.now.units }
    requires exact { AreExact names.now costs }
    ensures units { IfOk result (λ r. r.0.units ≡ map (longest names.now) names.now.units) }
    ensures tasks { IfOk result (λ r. r.0.tasks
        ≡ map (task_cost names.now r.0.units) names.now.programs) }
    ensures paths { IfOk result (λ r. r.1.units ≡ map (path_of names.now) names.now.units) }
{
    let tasks = task_costs(alloc, names, &costs)?;
    let paths = unit_paths(alloc, names, all, &costs)?;
    Ok((
        Budget {
            units: costs,
            tasks,
        },
        Path { units: paths },
    ))
}
