//! Checks the declarations of a configuration, and says what its names mean.
#![tactic(auto)]

mod again;
mod cars;
mod declared;
mod externals;
mod fault;
mod mentions;
mod per_unit;
mod sets;
mod sizes;
mod taken;
mod tasks;
mod types;
mod units;
mod whole;

ghost use Rattle.std.specs.Prelude.{◌≡◌, IfOk, IfErr};
ghost use Rattle.il_statics.specs.Faults.{HasNoFault, IsRefusedBy, BreaksDeclarations};

use crate::whole::declared_fault;
pub use declared::Declared;
pub use fault::DeclareFault;
use il_statics::{Written, refusal};
use il_syntax::fault::Refusal;
use load_scope::Scoped;
pub use per_unit::{UnitFault, put_found, unit_faults};
use std::alloc::Global;

/// Checks the declarations of a configuration as a text spells it (20 to 25), and finds what its names mean.
/// Of the faults the one at the earliest place is named, at one place the one with the lowest number.
pub fn declare(alloc: Global, written: Written) -> Result<Declared, Refusal>
    ensures same { IfOk result (λ d. d ≡ written) }
    ensures accepted { IfOk result (λ _. HasNoFault (BreaksDeclarations written)) }
    ensures refused { IfErr result (IsRefusedBy (BreaksDeclarations written)) }
{
    let scoped = Scoped::of(alloc, written)?;
    declare_scoped(alloc, scoped)
}

/// Checks the declarations of a configuration whose names have their meanings already.
pub fn declare_scoped(alloc: Global, scoped: Scoped) -> Result<Declared, Refusal>
    ensures same { IfOk result (λ d. d ≡ scoped) }
    ensures accepted { IfOk result (λ _. HasNoFault (BreaksDeclarations scoped)) }
    ensures refused { IfErr result (IsRefusedBy (BreaksDeclarations scoped)) }
{
    check(alloc, &scoped)?;
    Ok(Declared::of(scoped))
}

// Checks the declarations.
fn check(alloc: Global, names: &Scoped) -> Result<(), Refusal>
    ensures accepted { IfOk result (λ _. HasNoFault (BreaksDeclarations names.now)) }
    ensures refused { IfErr result (IsRefusedBy (BreaksDeclarations names.now)) }
{
    match declared_fault(alloc, names)? {
        Some(found) => Err(refusal(found)),
        None => Ok(()),
    }
}
