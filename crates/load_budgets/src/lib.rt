//! Configurations in which each instruction has ranges, and what their units and tasks cost at most.
#![tactic(auto)]

mod answer;
mod container;
mod costing;
pub mod costs;
mod fault;
pub mod path;
pub mod table;
mod tasks;
mod units;
pub mod ways;

ghost use Rattle.std.specs.Prelude.{◌≡◌, IfOk, IfErr};
ghost use Rattle.il_statics.specs.Faults.{IsRefusedBy};
ghost use Rattle.il_semantics.specs.Annotation.{Annotated};
ghost use Rattle.ranges_pass.specs.Lacking.{BreaksRanges};

pub use answer::{Budget, Path};
pub use container::Checked;
pub use costing::budget;
pub use fault::BudgetFault;
use il_syntax::fault::Refusal;
use il_syntax::pair::both;
use load_code::Code;
use ranges_pass::annotated;
use std::alloc::Global;

/// Finds ranges for each instruction of each unit, by one forward pass with joins where paths meet (own rule).
/// 40 where a result may leave its type, 41 where a divisor may be 0, 42 where an index may lie outside of its array,
/// 43 where a stored value may leave its variable's range, 44 where an argument may: at the first instruction of a unit
/// up to and including which no ranges exist, of several units at the one that is earliest in the text.
pub fn verify(alloc: Global, code: Code) -> Result<Checked, Refusal>
    ensures same { IfOk result (λ c. c ≡ code) }
    ensures accepted { IfOk result (λ _. Annotated code) }
    ensures refused { IfErr result (IsRefusedBy (BreaksRanges code)) }
{
    let found = check(alloc, &code);
    let (code, ()) = both(code, found)?;
    Ok(Checked::of(code))
}

// Finds ranges for each instruction.
fn check(alloc: Global, code: &Code) -> Result<(), Refusal>
    ensures accepted { IfOk result (λ _. Annotated code.now) }
    ensures refused { IfErr result (IsRefusedBy (BreaksRanges code.now)) }
{
    annotated(alloc, code.names())
}
