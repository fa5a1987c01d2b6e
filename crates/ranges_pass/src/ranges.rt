// The pass over all units of a configuration.

ghost use Rattle.std.specs.Prelude.{◌≡◌, IfOk, IfErr, length};
ghost use Rattle.il_statics.specs.Faults.{BreaksDeclarations, Broken, Typing, HasNoFault, IsRefusedBy};
ghost use Rattle.il_semantics.specs.Annotation.{Annotated};
ghost use Rattle.ranges_pass.specs.Judged.{AreJudged};
ghost use Rattle.ranges_pass.specs.Lacking.{BreaksRanges};

use crate::fault::RangeFault;
use crate::unit_flow::unit_fault;
use il_statics::{Found, earlier, refusal};
use il_syntax::fault::Refusal;
use load_scope::Scoped;
use std::alloc::{AllocError, Global};

// The fault that is earliest in the text, of all units.
fn units_fault(alloc: Global, names: &Scoped) -> Result<Option<Found<RangeFault>>, AllocError>
    requires declared { HasNoFault (BreaksDeclarations names.now) }
    requires typed { HasNoFault (Broken Typing names.now) }
    ensures { IfOk result (AreJudged names.now (length names.now.units)) }
{
    let units = names.config().units.as_slice();
    let mut found = None;
    for at in 0..units.len() {
        found = earlier(found, unit_fault(alloc, names, at, &units[at])?);
    }
    Ok(found)
}

/// Finds ranges for each instruction of each unit, by one forward pass with joins where paths meet (own rule).
/// 40 where a result may leave its type, 41 where a divisor may be 0, 42 where an index may lie outside of its array,
/// 43 where a stored value may leave its variable's range, 44 where an argument may: at the first instruction of a unit
/// up to and including which no ranges exist, of several units at the one that is earliest in the text.
pub fn annotated(alloc: Global, names: &Scoped) -> Result<(), Refusal>
    requires declared { HasNoFault (BreaksDeclarations names.now) }
    requires typed { HasNoFault (Broken Typing names.now) }
    ensures annotated { IfOk result (λ _. Annotated names.now) }
    ensures refused { IfErr result (IsRefusedBy (BreaksRanges names.now)) }
{
    match units_fault(alloc, names)? {
        Some(found) => Err(refusal(found)),
        None => Ok(()),
    }
}
