// The first fault of types of each unit, side by side.

ghost use Rattle.std.specs.Prelude.{Contains, IfOk};
ghost use Rattle.il_statics.specs.Faults.{Broken, Typing};
ghost use Rattle.load_declarations.specs.declared.per_unit.UnitFault.{UnitFault as FaultOf};
ghost use Rattle.load_declarations.specs.UnitFaults.{AreFirst};
ghost use Rattle.load_types.specs.Faults.{UnitBreaks};
ghost use Rattle.load_types.specs.Judged.{AreShort};

use crate::unit::unit_fault;
use load_declarations::{Declared, UnitFault, put_found};
use load_scope::{Scoped, UnitScope};
use std::alloc::{AllocError, Global};

/// The first fault of types of each unit that breaks a rule of its own, in the order of the units. As no rule of declarations is broken, what a
/// unit uses of others is well, and each is judged by itself: no unit is left out. That two tasks write a global (38) is no unit's own fault.
pub fn unit_faults(alloc: Global, declared: &Declared) -> Result<Vec<UnitFault>, AllocError>
    ensures all { IfOk result (λ faults. AreFirst (UnitBreaks declared.now) declared.now.units
        faults.items) }
    ensures broken { IfOk result (λ faults. (fault : FaultOf) → Contains faults.items fault
        → Broken Typing declared.now fault.number fault.place) }
{
    let names = declared.names();
    let _few = names.written().tree();
    faults_of(alloc, names)
}

// The faults of types of each unit that is not too long.
fn faults_of(alloc: Global, names: &Scoped) -> Result<Vec<UnitFault>, AllocError>
    requires room { AreShort names.now.units }
    ensures { IfOk result (λ faults. AreFirst (UnitBreaks names.now) names.now.units
        faults.items) }
{
    let units = names.config().units.as_slice();
    let mut faults = Vec::new(alloc);
    for at in 0..units.len() {
        let scope = UnitScope::of(names, at, &units[at]);
        let found = unit_fault(alloc, &scope, &units[at].body)?;
        put_found(found, &mut faults)?;
    }
    Ok(faults)
}
