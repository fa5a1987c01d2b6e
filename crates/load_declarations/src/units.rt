// The rules of units.

ghost use Rattle.std.specs.Prelude.{◌≡◌, IfOk};
ghost use Rattle.il_statics.specs.Declarations.{admitted_variables};
ghost use Rattle.il_statics.specs.Least.{IsLeast, Either};
ghost use Rattle.load_declarations.specs.Places.{Among};
ghost use Rattle.load_declarations.specs.Written.{shown};
ghost use Rattle.load_declarations.specs.Units.{BreaksResult, BreaksLists, BreaksChecked, DeclaresAgain, UnitBreaks};

use crate::again::{second_label, second_variable};
use crate::externals::externals_fault;
use crate::fault::DeclareFault;
use crate::mentions::steps_fault;
use crate::taken::taken_in_unit;
use crate::types::{Admitted, declarations_fault, subrange_fault};
use il_statics::{Found, earlier};
use il_syntax::tree::{Unit, UnitKind};
use load_scope::{Scoped, UnitScope};
use std::alloc::{AllocError, Global};

/// The first fault of units.
pub fn units_fault(alloc: Global, names: &Scoped) -> Result<Option<Found<DeclareFault>>, AllocError>
    ensures { IfOk result (λ found. IsLeast found (Among (UnitBreaks names.now) names.now.units)) }
{
    let units = names.config().units.as_slice();
    let mut found = None;
    for at in 0..units.len() {
        let unit = &units[at];
        let here = UnitScope::of(names, at, unit);
        found = earlier(found, unit_fault(alloc, &here)?);
    }
    Ok(found)
}

/// The first fault of a unit.
pub fn unit_fault(
    alloc: Global,
    here: &UnitScope,
) -> Result<Option<Found<DeclareFault>>, AllocError>
    ensures { IfOk result (λ found. IsLeast found (UnitBreaks here.now.config here.now.unit)) }
{
    let again = again_fault(alloc, here.tree())?;
    Ok(earlier(checked_fault(here), again))
}

// The first variable or label of a unit that is declared again.
fn again_fault(alloc: Global, unit: &Unit) -> Result<Option<Found<DeclareFault>>, AllocError>
    ensures { IfOk result (λ found. IsLeast found (DeclaresAgain unit.now)) }
{
    let variable = second_variable(alloc, unit)?;
    let label = second_label(alloc, &unit.body)?;
    Ok(earlier(variable, label))
}

// The first fault of a unit's types, externals, taken names, and names in instructions.
fn checked_fault(here: &UnitScope) -> Option<Found<DeclareFault>>
    ensures { IsLeast result (BreaksChecked here.now.config here.now.unit) }
{
    let config = here.names();
    let unit = here.tree();
    let typed = types_fault(config, unit);
    let external = externals_fault(config, unit.externals.as_slice());
    let taken = taken_in_unit(config, unit);
    let named = steps_fault(here, unit.body.steps.as_slice());
    earlier(typed, earlier(external, earlier(taken, named)))
}

// The first fault of the types and initial values that a unit writes.
fn types_fault(names: &Scoped, unit: &Unit) -> Option<Found<DeclareFault>>
    ensures { IsLeast result (Either (BreaksResult unit.now.kind)
        (BreaksLists names.now unit.now)) }
{
    earlier(result_fault(unit.kind), lists_fault(names, unit))
}

// What the type of a function's result breaks (IEC 61131-3:2003, 2.5.1.3).
fn result_fault(kind: UnitKind) -> Option<Found<DeclareFault>>
    ensures { IsLeast result (BreaksResult kind) }
{
    match kind {
        UnitKind::Function(scalar, place) => subrange_fault(scalar, place),
        _ => None,
    }
}

// The first fault of a unit's declarations.
fn lists_fault(names: &Scoped, unit: &Unit) -> Option<Found<DeclareFault>>
    ensures { IsLeast result (BreaksLists names.now unit.now) }
{
    let alone = Admitted::ScalarsAlone;
    let admitted = admitted_variables(unit.kind);
    let inputs = declarations_fault(names, alone, unit.inputs.as_slice());
    let outputs = declarations_fault(names, alone, unit.outputs.as_slice());
    let variables = declarations_fault(names, admitted, unit.variables.as_slice());
    let arrays = Admitted::ScalarsAndArrays;
    let externals = declarations_fault(names, arrays, unit.externals.as_slice());
    earlier(inputs, earlier(outputs, earlier(variables, externals)))
}

// What the variables of a unit's VAR list may be (own rule).
fn admitted_variables(kind: UnitKind) -> Admitted
    ensures { shown result ≡ admitted_variables kind }
{
    match kind {
        UnitKind::Function(..) => Admitted::ScalarsAlone,
        UnitKind::FunctionBlock | UnitKind::Program => Admitted::AllForms,
    }
}
