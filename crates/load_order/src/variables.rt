// The variables of units, by their types.

ghost use Rattle.std.specs.Prelude.{◌≡◌, ◌++◌, IfOk};
ghost use Rattle.load_order.specs.Counted.{listed, all_listed, unit_listed, units_listed};

use base_lists::Items;
use il_syntax::tree::{Declaration, Unit};
use load_scope::Scoped;
use load_scope::entry::VariableType;
use std::alloc::{AllocError, Global};

/// The variables of one declaration: how many, and of which type.
#[derive(Clone, Copy)]
pub struct Variables {
    pub count: usize,
    pub declared: VariableType,
}

/// The variables of each unit: its inputs, outputs and variables, in their order.
pub fn units_listed(alloc: Global, names: &Scoped) -> Result<Items<Items<Variables>>, AllocError>
    ensures { IfOk result (λ u. u ≡ units_listed names.now) }
{
    let mut all = Items::new(alloc);
    for unit in names.config().units.as_slice() {
        all.push(unit_listed(alloc, names, unit)?)?;
    }
    Ok(all)
}

// The variables of a unit.
fn unit_listed(alloc: Global, names: &Scoped, unit: &Unit) -> Result<Items<Variables>, AllocError>
    ensures { IfOk result (λ v. v ≡ unit_listed names.now unit.now) }
{
    let mut variables = all_listed(alloc, names, unit.inputs.as_slice())?;
    note_all(names, unit.outputs.as_slice(), &mut variables)?;
    note_all(names, unit.variables.as_slice(), &mut variables)?;
    Ok(variables)
}

/// Declared variables.
pub fn all_listed(
    alloc: Global,
    names: &Scoped,
    declarations: &[Declaration],
) -> Result<Items<Variables>, AllocError>
    ensures { IfOk result (λ v. v ≡ all_listed names.now declarations.now) }
{
    let mut variables = Items::new(alloc);
    note_all(names, declarations, &mut variables)?;
    Ok(variables)
}

// Notes declared variables.
fn note_all(
    names: &Scoped,
    declarations: &[Declaration],
    variables: &mut Items<Variables>,
) -> Result<(), AllocError>
    ensures { IfOk result (λ _. variables.new ≡ variables.old
        ++ all_listed names.now declarations.now) }
{
    for declaration in declarations {
        variables.push(listed(names, declaration))?;
    }
    Ok(())
}

// The variables of a declaration.
fn listed(names: &Scoped, declaration: &Declaration) -> Variables
    ensures { result ≡ listed names.now declaration.now }
{
    Variables {
        count: declaration.names.as_slice().len(),
        declared: names.type_of(&declaration.declared.form),
    }
}
