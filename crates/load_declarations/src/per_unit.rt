// The first fault of each unit, side by side.

ghost use Rattle.std.specs.Prelude.{◌≡◌, ◌++◌, Contains, IfOk, OnOk};
ghost use Rattle.il_statics.specs.Faults.{BreaksDeclarations};
ghost use Rattle.load_declarations.specs.Units.{UnitBreaks};
ghost use Rattle.load_declarations.specs.UnitFaults.{AreFirst, listed};
ghost use Rattle.load_declarations.specs.declared.per_unit.UnitFault.{UnitFault as FaultOf};

use crate::units::unit_fault;
use il_statics::{Found, PhaseFault};
use il_syntax::tree::Place;
use load_scope::{Scoped, UnitScope};
use std::alloc::{AllocError, Global};

/// A fault of a unit.
#[derive(Clone, Copy, Debug)]
pub struct UnitFault {
    /// Its number.
    pub number: u16,
    /// Where it is.
    pub place: Place,
}

/// The first fault of each unit that breaks a rule of its own declarations, in the order of the units: of its types, initial values, externals,
/// names, labels, and names in instructions. What concerns several units is no unit's own: a second unit of one name, globals and tasks.
pub fn unit_faults(alloc: Global, names: &Scoped) -> Result<Vec<UnitFault>, AllocError>
    ensures all { IfOk result (λ faults. AreFirst (UnitBreaks names.now) names.now.units
        faults.items) }
    ensures broken { IfOk result (λ faults. (fault : FaultOf) → Contains faults.items fault
        → BreaksDeclarations names.now fault.number fault.place) }
{
    let units = names.config().units.as_slice();
    let mut faults = Vec::new(alloc);
    for at in 0..units.len() {
        let here = UnitScope::of(names, at, &units[at]);
        let found = unit_fault(alloc, &here)?;
        put_found(found, &mut faults)?;
    }
    Ok(faults)
}

/// Puts a fault after others, if one was found.
pub fn put_found<F: PhaseFault>(
    found: Option<Found<F>>,
    faults: &mut Vec<UnitFault>,
) -> Result<(), AllocError>
    ensures { OnOk result (faults.new.items ≡ faults.old.items ++ listed found) }
{
    if let Some(found) = found {
        let fault = UnitFault {
            number: found.number(),
            place: found.place(),
        };
        faults.push(fault)?;
    }
    Ok(())
}
