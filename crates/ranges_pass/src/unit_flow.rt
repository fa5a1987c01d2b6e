// The pass over a unit.

ghost use Rattle.std.specs.Prelude.{◌≡◌, IfOk, Some, None, true, slice_get};
ghost use Rattle.il_statics.specs.Faults.{BreaksDeclarations, Broken, Typing, HasNoFault};
ghost use Rattle.ranges_laws.specs.Facts.{facts_join};
ghost use Rattle.ranges_laws.specs.Prepared.{entry};
ghost use Rattle.ranges_pass.specs.Judged.{Setting, IsJudged};

use crate::fault::RangeFault;
use crate::numbered_unit::NumberedUnit;
use crate::numbering::{Numbering, numbering_of};
use crate::refusals::fault_of;
use base_lists::Items;
use il_statics::Found;
use il_syntax::tree::{Step, Unit};
use load_scope::{Scoped, UnitScope};
use ranges_laws::facts::Facts;
use ranges_transfer::carried::Carried;
use ranges_transfer::hand_on;
use ranges_transfer::join::join_facts;
use ranges_transfer::observer::Nobody;
use ranges_transfer::pass::{Flow, Handed, pass};
use std::alloc::{AllocError, Global};

// What is known where two paths meet.
fn joined(first: Carried, second: Carried) -> Option<Carried>
    ensures { result ≡ facts_join first second }
{
    join_facts(first, second)
}

/// The instructions of a unit, with what its names mean.
#[derive(Drop)]
pub struct UnitFlow<'n> {
    pub scope: &'n NumberedUnit<'n>,
    pub steps: &'n [Step],
}

impl Flow for UnitFlow<'_> {
    ghost use Rattle.ranges_laws.specs.Facts.{facts_join, IsFine};
    ghost use Rattle.ranges_laws.specs.Steps.{moves};
    ghost use Rattle.ranges_pass.specs.Judged.{IsPlaceOf, IsRefusalOf};

    type Facts = Carried;

    type Refused = Found<RangeFault>;

    ghost join = { facts_join };

    ghost moves = { λ f place k. moves f.scope.now f.scope.now.config f.scope.now.unit place k };

    ghost holds = { λ f place. IsPlaceOf f.scope.now f.steps.now place };

    ghost takes = { λ f k. IsFine f.scope.now k };

    ghost refuses = { λ f place k found. IsRefusalOf f.scope.now place k found };

    fn join(first: Carried, second: Carried) -> Option<Carried>
        ensures { result ≡ facts_join first second }
    {
        joined(first, second)
    }

    fn hand_on(
        &self,
        alloc: Global,
        place: usize,
        facts: Carried,
    ) -> Result<Option<Handed<Carried>>, AllocError> {
        hand_on(alloc, self.scope, facts, self.steps, place)
    }

    fn refusal(&self, place: usize, facts: &Carried) -> Found<RangeFault> {
        let step = &self.steps[place];
        Found::of(
            fault_of(self.scope, &*facts.kept, &step.instruction),
            step.place,
        )
    }
}

/// The instructions of a unit, of which no reason is asked where one is refused.
#[derive(Drop)]
pub struct UnitPassage<'n> {
    pub scope: &'n NumberedUnit<'n>,
    pub steps: &'n [Step],
}

impl Flow for UnitPassage<'_> {
    ghost use Rattle.ranges_laws.specs.Facts.{facts_join, IsFine};
    ghost use Rattle.ranges_laws.specs.Steps.{moves};
    ghost use Rattle.ranges_pass.specs.Judged.{IsPlaceOf};

    type Facts = Carried;

    type Refused = ();

    ghost join = { facts_join };

    ghost moves = { λ f place k. moves f.scope.now f.scope.now.config f.scope.now.unit place k };

    ghost holds = { λ f place. IsPlaceOf f.scope.now f.steps.now place };

    ghost takes = { λ f k. IsFine f.scope.now k };

    ghost refuses = { λ f place k found. Unit {0} };

    fn join(first: Carried, second: Carried) -> Option<Carried>
        ensures { result ≡ facts_join first second }
    {
        joined(first, second)
    }

    fn hand_on(
        &self,
        alloc: Global,
        place: usize,
        facts: Carried,
    ) -> Result<Option<Handed<Carried>>, AllocError> {
        hand_on(alloc, self.scope, facts, self.steps, place)
    }

    fn refusal(&self, _place: usize, _facts: &Carried) {}
}

/// The facts at the entry of a unit.
pub fn entry(alloc: Global, numbering: &Numbering) -> Result<Carried, AllocError>
    ensures { IfOk result (λ f. f ≡ entry numbering.now.declared) }
{
    let facts = Facts {
        row: numbering.declared(alloc)?,
        result: None,
        deferred: Items::new(alloc),
    };
    Carried::of(alloc, facts)
}

// Whether a unit has ranges at all its places, by the numbers of its variables.
fn has_ranges(
    alloc: Global,
    scope: &NumberedUnit,
    numbering: &Numbering,
    steps: &[Step],
) -> Result<bool, AllocError>
    requires steps { steps.now ≡ scope.now.unit.body.steps }
    requires setting { Setting scope.now numbering.now.declared }
    ensures { IfOk result (λ fine. fine ≡ true → IsJudged scope.now.config scope.now.unit None) }
{
    let entry = entry(alloc, numbering)?;
    let passage = UnitPassage { scope, steps };
    let refused = pass(alloc, &passage, entry, steps.len(), &mut Nobody)?;
    Ok(refused.is_none())
}

// The fault of the first instruction up to and including which a unit has no ranges, by the numbers of its variables.
fn flow_fault(
    alloc: Global,
    scope: &NumberedUnit,
    numbering: &Numbering,
    steps: &[Step],
) -> Result<Option<Found<RangeFault>>, AllocError>
    requires steps { steps.now ≡ scope.now.unit.body.steps }
    requires setting { Setting scope.now numbering.now.declared }
    ensures { IfOk result (IsJudged scope.now.config scope.now.unit) }
{
    let entry = entry(alloc, numbering)?;
    let flow = UnitFlow { scope, steps };
    pass(alloc, &flow, entry, steps.len(), &mut Nobody)
}

// The first fault of a unit, without a search for a reason where there is none.
fn first_fault(
    alloc: Global,
    scope: &NumberedUnit,
    numbering: &Numbering,
    steps: &[Step],
) -> Result<Option<Found<RangeFault>>, AllocError>
    requires steps { steps.now ≡ scope.now.unit.body.steps }
    requires setting { Setting scope.now numbering.now.declared }
    ensures { IfOk result (IsJudged scope.now.config scope.now.unit) }
{
    if has_ranges(alloc, scope, numbering, steps)? {
        return Ok(None);
    }
    flow_fault(alloc, scope, numbering, steps)
}

/// The fault of the first instruction of a unit up to and including which it has no ranges.
pub fn unit_fault(
    alloc: Global,
    names: &Scoped,
    at: usize,
    unit: &Unit,
) -> Result<Option<Found<RangeFault>>, AllocError>
    requires unit { slice_get names.now.units at ≡ Some unit.now }
    requires declared { HasNoFault (BreaksDeclarations names.now) }
    requires typed { HasNoFault (Broken Typing names.now) }
    ensures { IfOk result (IsJudged names.now unit.now) }
{
    let named = UnitScope::of(names, at, unit);
    let numbering = numbering_of(alloc, &named)?;
    let scope = NumberedUnit::of(&named, &numbering);
    first_fault(alloc, &scope, &numbering, unit.body.steps.as_slice())
}
