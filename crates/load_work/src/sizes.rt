// How many variables a function has.

ghost use Rattle.std.specs.Prelude.{◌≡◌, ◌+◌, IfOk, map};
ghost use Rattle.il_semantics.specs.Meaning.{width};
ghost use Rattle.load_work.specs.Sizes.{capped, number_at, form_size, with_names, with_declared, unit_size};

use base_lists::Items;
use il_syntax::tree::{Config, Declaration, Form, Named, Subrange, Unit, UnitKind};
use std::alloc::{AllocError, Global};

/// The sum of two numbers, or the greatest number.
pub fn sum(first: usize, second: usize) -> usize
    ensures { result ≡ capped (first + second) }
{
    first.saturating_add(second)
}

/// A number of a list; one that is not there is 0.
pub fn number_at(numbers: &[usize], at: usize) -> usize
    ensures { result ≡ number_at numbers.now at }
{
    match numbers.get(at) {
        Some(number) => *number,
        None => 0,
    }
}

/// The variables of each unit and, of a function, its result.
pub fn unit_sizes(alloc: Global, config: &Config) -> Result<Items<usize>, AllocError>
    ensures { IfOk result (λ sizes. sizes ≡ map unit_size config.now.units) }
{
    let mut sizes = Items::new(alloc);
    'units: for unit in config.units.as_slice() {
        sizes.push(unit_size(unit))?;
    }
    Ok(sizes)
}

// The variables of a unit.
fn unit_size(unit: &Unit) -> usize
    ensures { result ≡ unit_size unit.now }
{
    let inputs = with_declared(0, unit.inputs.as_slice());
    let outputs = with_declared(inputs, unit.outputs.as_slice());
    let variables = with_declared(outputs, unit.variables.as_slice());
    match unit.kind {
        UnitKind::Function { .. } => sum(variables, 1),
        UnitKind::FunctionBlock | UnitKind::Program => variables,
    }
}

// The variables of some declarations, added to a number.
fn with_declared(total: usize, declarations: &[Declaration]) -> usize
    ensures { result ≡ with_declared total declarations.now }
{
    let mut all = total;
    'declarations: for declaration in declarations {
        let size = form_size(&declaration.declared.form);
        all = with_names(all, size, declaration.names.as_slice());
    }
    all
}

// So many for each name, added to a number.
fn with_names(total: usize, size: usize, names: &[Named]) -> usize
    ensures { result ≡ with_names total size names.now }
{
    let mut all = total;
    'names: for _name in names {
        all = sum(all, size);
    }
    all
}

// The variables of a type: a scalar is one, an array one for each element; a function has no instances.
fn form_size(form: &Form) -> usize
    ensures { result ≡ form_size form.now }
{
    match form {
        Form::Scalar(_) => 1,
        Form::Array { bounds, .. } => array_size(*bounds),
        Form::Block(_) => 0,
    }
}

// The elements of an array.
fn array_size(bounds: Subrange) -> usize
    ensures { result ≡ capped (width bounds) }
{
    if bounds.upper < bounds.lower {
        0
    } else {
        sum(bounds.upper.abs_diff(bounds.lower) as usize, 1)
    }
}
