// The rules of types in a configuration.

ghost use Rattle.std.specs.Prelude.{◌≡◌, IfOk};
ghost use Rattle.il_statics.specs.Faults.{Broken, Typing};
ghost use Rattle.il_statics.specs.Least.{IsLeast};
ghost use Rattle.load_types.specs.Faults.{AllUnitsBreak};
ghost use Rattle.load_types.specs.Judged.{AreShort};

use crate::fault::TypeFault;
use crate::unit::unit_fault;
use crate::writers::writers_fault;
use il_statics::{Found, earlier};
use load_scope::{Scoped, UnitScope};
use std::alloc::{AllocError, Global};

// The first fault of types in all units, but for 38.
fn units_fault(alloc: Global, names: &Scoped) -> Result<Option<Found<TypeFault>>, AllocError>
    requires room { AreShort names.now.units }
    ensures { IfOk result (λ found. IsLeast found (AllUnitsBreak names.now)) }
{
    let units = names.config().units.as_slice();
    let mut found = None;
    for at in 0..units.len() {
        let scope = UnitScope::of(names, at, &units[at]);
        found = earlier(found, unit_fault(alloc, &scope, &units[at].body)?);
    }
    Ok(found)
}

/// The first fault of types: at the earliest place, at one place the one with the lowest number.
pub fn types_fault(alloc: Global, names: &Scoped) -> Result<Option<Found<TypeFault>>, AllocError>
    requires room { AreShort names.now.units }
    ensures { IfOk result (λ found. IsLeast found (Broken Typing names.now)) }
{
    let units = units_fault(alloc, names)?;
    let writers = writers_fault(alloc, names)?;
    Ok(earlier(units, writers))
}
