// Names that are predeclared or a unit's (IEC 61131-3:2003, 2.4.3, 2.5).

ghost use Rattle.std.specs.Prelude.{◌≡◌, ◌||◌};
ghost use Rattle.il_statics.specs.Names.{is_one_of, is_predeclared};
ghost use Rattle.il_statics.specs.Declarations.{names_of_units};
ghost use Rattle.il_statics.specs.Least.{IsLeast};
ghost use Rattle.load_declarations.specs.Places.{Among};
ghost use Rattle.load_declarations.specs.Taken.{InLists, TakenName, TakenNames, TakenInUnit};

use crate::fault::DeclareFault;
use il_statics::{Found, earlier, fault_if};
use il_syntax::tree::{Declaration, Named, Unit};
use load_scope::Scoped;

/// The first fault of a unit's name and of its variables' names: one that is predeclared, or a variable with a unit's.
pub fn taken_in_unit(names: &Scoped, unit: &Unit) -> Option<Found<DeclareFault>>
    ensures { IsLeast result (TakenInUnit names.now unit.now) }
{
    let predeclared = names.is_predeclared(unit.name.name.as_str());
    let heading = fault_if(predeclared, DeclareFault::Duplicate, unit.place);
    earlier(heading, taken_variables(names, unit))
}

// The first of a unit's variables that has such a name.
fn taken_variables(names: &Scoped, unit: &Unit) -> Option<Found<DeclareFault>>
    ensures { IsLeast result (InLists (TakenNames names.now) unit.now) }
{
    let inputs = taken_declared(names, unit.inputs.as_slice());
    let outputs = taken_declared(names, unit.outputs.as_slice());
    let variables = taken_declared(names, unit.variables.as_slice());
    let externals = taken_declared(names, unit.externals.as_slice());
    earlier(inputs, earlier(outputs, earlier(variables, externals)))
}

/// The first name of declarations that is predeclared or a unit's.
pub fn taken_declared(names: &Scoped, declarations: &[Declaration]) -> Option<Found<DeclareFault>>
    ensures { IsLeast result (Among (TakenNames names.now) declarations.now) }
{
    let mut found = None;
    for declaration in declarations {
        found = earlier(found, taken_named(names, declaration.names.as_slice()));
    }
    found
}

// The first such name.
fn taken_named(names: &Scoped, named: &[Named]) -> Option<Found<DeclareFault>>
    ensures { IsLeast result (Among (TakenName names.now) named.now) }
{
    let mut found = None;
    for name in named {
        let taken = is_taken(names, name.name.as_str());
        found = earlier(found, fault_if(taken, DeclareFault::Duplicate, name.place));
    }
    found
}

// Whether a name is predeclared or a unit's.
fn is_taken(names: &Scoped, name: &str) -> bool
    ensures { result ≡ (is_predeclared names.now name.now || is_one_of (names_of_units names.now)
        name.now) }
{
    names.is_predeclared(name) || names.is_unit(name)
}
