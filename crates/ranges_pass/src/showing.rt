// The pass over a unit before a witness.

ghost use Rattle.std.specs.Prelude.{◌≡◌, IfOk, Some, slice_get};
ghost use Rattle.il_statics.specs.Faults.{BreaksDeclarations, Broken, Typing, HasNoFault};
ghost use Rattle.ranges_pass.specs.Judged.{Setting};
ghost use Rattle.ranges_pass.specs.Shown.{IsShown};

use crate::fault::RangeFault;
use crate::numbered_unit::NumberedUnit;
use crate::numbering::{Numbering, numbering_of};
use crate::places::{PlaceFacts, Witness};
use crate::unit_flow::{UnitFlow, entry};
use il_statics::Found;
use il_syntax::tree::{Step, Unit};
use load_scope::{Scoped, UnitScope};
use ranges_transfer::carried::Carried;
use ranges_transfer::observer::Observer;
use ranges_transfer::pass::pass;
use std::alloc::{AllocError, Global};

/// Shows a witness the instructions of a unit, with what has arrived at each.
#[derive(Drop)]
pub struct Showing<'n, W> {
    scope: &'n NumberedUnit<'n>,
    steps: &'n [Step],
    witness: W,
}

impl<W: Witness> Observer<Carried> for Showing<'_, W> {
    ghost use Rattle.ranges_pass.specs.Shown.{place_text};

    ghost text = { λ s. W.text s.witness };

    ghost shows = { λ s. place_text (W.shows s.witness) s.scope.now s.steps.now };

    fn see(&mut self, place: usize, facts: &Option<Carried>) -> Result<(), AllocError> {
        let Some(step) = self.steps.get(place) else {
            return Ok(());
        };
        match facts {
            Some(facts) => {
                self.witness
                    .reached(step, &PlaceFacts::of(self.scope, &*facts.kept))
            }
            None => self.witness.not_reached(step),
        }
    }
}

// The fault of a unit, and the witness that was shown it, by the numbers of its variables.
fn showing_fault<W: Witness + Drop>(
    alloc: Global,
    scope: &NumberedUnit,
    numbering: &Numbering,
    steps: &[Step],
    witness: W,
) -> Result<(Option<Found<RangeFault>>, W), AllocError>
    requires steps { steps.now ≡ scope.now.unit.body.steps }
    requires setting { Setting scope.now numbering.now.declared }
    ensures { IfOk result (λ r. IsShown scope.now.config scope.now.unit (W.shows witness)
        (W.text witness) (W.text r.1) r.0) }
{
    let entry = entry(alloc, numbering)?;
    let flow = UnitFlow { scope, steps };
    let mut showing = Showing {
        scope,
        steps,
        witness,
    };
    let fault = pass(alloc, &flow, entry, steps.len(), &mut showing)?;
    let Showing { witness, .. } = showing;
    Ok((fault, witness))
}

/// Shows a witness what is known before each instruction of a unit, in the written order, and answers the fault of the
/// first instruction up to and including which the unit has no ranges. That instruction is the last that is shown.
pub fn shown_unit<W: Witness + Drop>(
    alloc: Global,
    names: &Scoped,
    at: usize,
    unit: &Unit,
    witness: W,
) -> Result<(Option<Found<RangeFault>>, W), AllocError>
    requires unit { slice_get names.now.units at ≡ Some unit.now }
    requires declared { HasNoFault (BreaksDeclarations names.now) }
    requires typed { HasNoFault (Broken Typing names.now) }
    ensures { IfOk result (λ r. IsShown names.now unit.now (W.shows witness) (W.text witness)
        (W.text r.1) r.0) }
{
    let named = UnitScope::of(names, at, unit);
    let numbering = numbering_of(alloc, &named)?;
    let scope = NumberedUnit::of(&named, &numbering);
    showing_fault(
        alloc,
        &scope,
        &numbering,
        unit.body.steps.as_slice(),
        witness,
    )
}
