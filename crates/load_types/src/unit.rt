// The pass over a unit.

ghost use Rattle.std.specs.Prelude.{◌≡◌, ◌<◌, length, IfOk};
ghost use Rattle.il_statics.specs.Least.{IsLeast};
ghost use Rattle.load_types.specs.Faults.{UnitBreaks};

use crate::fault::TypeFault;
use crate::places::{fresh, innermost, pass_on, place_fault, result_at, set_aside};
use crate::scope::Scope;
use il_statics::{Found, earlier};
use il_syntax::tree::Body;
use std::alloc::{AllocError, Global};

/// The first fault of types in a unit, but for 38.
pub fn unit_fault<S: Scope>(
    alloc: Global,
    scope: &S,
    body: &Body,
) -> Result<Option<Found<TypeFault>>, AllocError>
    requires body { (S.unit scope.now).body ≡ body.now }
    requires room { length body.now.steps < 4294967295 }
    ensures { IfOk result (λ found. IsLeast found
        (UnitBreaks (S.config scope.now) (S.unit scope.now))) }
{
    let steps = body.steps.as_slice();
    let mut table = fresh(alloc, steps.len())?;
    let mut waiting = Vec::new(alloc);
    let mut found = None;
    for at in 0..steps.len() {
        let step = &steps[at];
        let arrival = table[at];
        let deferred = innermost(waiting.as_slice());
        let fault = place_fault(alloc, scope, at, &step.instruction, arrival, deferred)?;
        found = earlier(found, fault.at(step.place));
        pass_on(scope, at, &step.instruction, arrival, deferred, &mut table);
        set_aside(&mut waiting, &step.instruction, result_at(arrival))?;
    }
    Ok(found)
}
