//! The order of units, and the limit of slots.
#![tactic(auto)]

mod answer;
mod chains;
mod container;
mod dead_ends;
mod fault;
mod limits;
pub mod relation;
mod slots;
pub mod uses;
mod variables;

ghost use Rattle.std.specs.Prelude.{◌≡◌, IfOk, IfErr};
ghost use Rattle.il_statics.specs.Faults.{IsRefusedBy, Ordering, HasNoFault, Broken, BreaksOrder};
ghost use Rattle.il_statics.specs.Least.{IsLeast};
ghost use Rattle.load_order.specs.Breaks.{reached};
ghost use Rattle.load_order.specs.Instances.{needed};

use crate::answer::{Checked, needed, order_fault};
use crate::relation::Relation;
pub use container::Ordered;
pub use fault::OrderFault;
use il_statics::refusal;
use il_syntax::fault::Refusal;
use load_types::Typed;
use std::alloc::{AllocError, Global};

/// Checks the order of units (36, 46) and the limit of slots of each task and of the globals (12).
/// Of the faults the one at the earliest place is named, at one place the one with the lowest number.
pub fn ordered(alloc: Global, typed: Typed) -> Result<Ordered, Refusal>
    ensures same { IfOk result (λ o. o ≡ typed) }
    ensures accepted { IfOk result (λ _. HasNoFault (Broken Ordering typed)) }
    ensures refused { IfErr result (IsRefusedBy (Broken Ordering typed)) }
{
    let needed = check(alloc, &typed)?;
    Ok(Ordered::of(typed, needed))
}

// Checks order and slots, and finds which units need which.
fn check(alloc: Global, typed: &Typed) -> Result<Relation, Refusal>
    ensures accepted { IfOk result (λ _. HasNoFault (Broken Ordering typed.now)) }
    ensures needed { IfOk result (λ r. r ≡ needed typed.now) }
    ensures refused { IfErr result (IsRefusedBy (Broken Ordering typed.now)) }
{
    let Checked { fault, reached } = checked(alloc, typed)?;
    match fault {
        Some(found) => Err(refusal(found)),
        None => Ok(needed(alloc, typed.names(), reached)?),
    }
}

// The first fault of order and slots, and which units reach which; what is typed breaks no rule of declarations.
fn checked(alloc: Global, typed: &Typed) -> Result<Checked, AllocError>
    ensures fault { IfOk result (λ c. IsLeast c.fault (λ n p. BreaksOrder typed.now n p)) }
    ensures reached { IfOk result (λ c. c.reached ≡ reached typed.now) }
{
    let _config = typed.config();
    order_fault(alloc, typed.names())
}
