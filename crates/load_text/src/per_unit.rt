// The first fault of each unit of a text.

ghost use Rattle.std.specs.Prelude.{◌≡◌, [], IfOk};
ghost use Rattle.il_syntax.specs.declared.tree.Config.{Config as ConfigOf};
ghost use Rattle.load_text.specs.Loading.{IsSpelled, SpellsNone};
ghost use Rattle.load_text.specs.UnitFaults.{AreUnitFaults};

use crate::loader::parsed;
use il_syntax::fault::Refusal;
use load_declarations::{UnitFault, declare_scoped};
use load_scope::Scoped;
use load_tree::Written;
use std::alloc::{AllocError, Global};

/// The first fault of each unit of a text, in the order of the units: of its declarations, where `load` refuses the text in that phase, and
/// otherwise of its types. The fault that `load` names is one of them, where it is a unit's own. A text that `load` refuses in an earlier phase
/// has none, and one that it accepts or refuses in a later phase neither.
pub fn unit_faults(alloc: Global, text: &[u8]) -> Result<Vec<UnitFault>, AllocError>
    ensures all { IfOk result (λ faults. (c : ConfigOf) → IsSpelled text.now c
        → AreUnitFaults c faults.items) }
    ensures early { IfOk result (λ faults. SpellsNone text.now → faults.items ≡ []) }
{
    match parsed(alloc, text) {
        Ok(written) => faults_of(alloc, written),
        Err(Refusal::Fault { .. }) => Ok(Vec::new(alloc)),
        Err(Refusal::Memory) => Err(AllocError),
    }
}

// The faults of each unit of the configuration that a text spells.
fn faults_of(alloc: Global, config: Written) -> Result<Vec<UnitFault>, AllocError>
    ensures { IfOk result (λ faults. AreUnitFaults config faults.items) }
{
    let scoped = Scoped::of(alloc, config)?;
    let faults = load_declarations::unit_faults(alloc, &scoped)?;
    match declare_scoped(alloc, scoped) {
        Ok(declared) => load_types::unit_faults(alloc, &declared),
        Err(Refusal::Fault { .. }) => Ok(faults),
        Err(Refusal::Memory) => Err(AllocError),
    }
}
