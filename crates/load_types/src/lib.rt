//! Checks the types of a configuration: one forward pass over the instructions of each unit.
#![tactic(auto)]

mod answer;
pub mod arrival;
mod calls;
mod container;
mod fault;
mod functions;
mod instructions;
mod names;
mod operands;
mod per_unit;
pub mod places;
pub mod scope;
mod stores;
mod unit;
mod writers;

ghost use Rattle.std.specs.Prelude.{◌≡◌, IfOk, IfErr};
ghost use Rattle.il_statics.specs.Faults.{Broken, Typing, HasNoFault, IsRefusedBy};

use crate::answer::types_fault;
pub use container::Typed;
pub use fault::TypeFault;
use il_statics::refusal;
use il_syntax::fault::Refusal;
use load_declarations::Declared;
use load_scope::Scoped;
pub use per_unit::unit_faults;
use std::alloc::Global;

/// Checks the types of a configuration (30 to 39).
/// Of the faults the one at the earliest place is named, at one place the one with the lowest number.
pub fn typed(alloc: Global, declared: Declared) -> Result<Typed, Refusal>
    ensures same { IfOk result (λ t. t ≡ declared) }
    ensures accepted { IfOk result (λ _. HasNoFault (Broken Typing declared)) }
    ensures refused { IfErr result (IsRefusedBy (Broken Typing declared)) }
{
    check(alloc, declared.names())?;
    Ok(Typed::of(declared))
}

// Checks the types.
fn check(alloc: Global, names: &Scoped) -> Result<(), Refusal>
    ensures accepted { IfOk result (λ _. HasNoFault (Broken Typing names.now)) }
    ensures refused { IfErr result (IsRefusedBy (Broken Typing names.now)) }
{
    let _few = names.written().tree();
    match types_fault(alloc, names)? {
        Some(found) => Err(refusal(found)),
        None => Ok(()),
    }
}
