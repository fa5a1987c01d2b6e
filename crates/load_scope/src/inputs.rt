// The scalar types of the inputs of units, in their order (IEC 61131-3:2003, 2.4.3).

ghost use Rattle.std.specs.Prelude.{◌≡◌, ◌++◌, Some, IfOk, map};
ghost use Rattle.load_scope.specs.Units.{scalar_of, input_scalars, declared_scalars};

use base_lists::Items;
use il_syntax::tree::{Declaration, Form, Named, Scalar, Unit};
use std::alloc::{AllocError, Global};

/// The scalar types of a unit's inputs, one for each name.
#[tactic(auto, using(crate::proofs::Owned::scalars_of_names))]
pub fn input_scalars(alloc: Global, unit: &Unit) -> Result<Items<Option<Scalar>>, AllocError>
    ensures { IfOk result (λ s. s ≡ input_scalars unit.now) }
{
    declared_scalars(alloc, unit.inputs.as_slice())
}

// The scalar types of declared variables, one for each name.
fn declared_scalars(
    alloc: Global,
    declarations: &[Declaration],
) -> Result<Items<Option<Scalar>>, AllocError>
    ensures { IfOk result (λ s. s ≡ declared_scalars declarations.now) }
{
    let mut scalars = Items::new(alloc);
    for declaration in declarations {
        let each = scalar_of(&declaration.declared.form);
        push_each(&mut scalars, declaration.names.as_slice(), each)?;
    }
    Ok(scalars)
}

// Adds a type once for each name.
fn push_each(
    scalars: &mut Items<Option<Scalar>>,
    names: &[Named],
    each: Option<Scalar>,
) -> Result<(), AllocError>
    ensures { IfOk result (λ _. scalars.new ≡ scalars.old ++ map (λ n. each) names.now) }
{
    for name in names {
        scalars.push(each)?;
    }
    Ok(())
}

// The type of a scalar.
fn scalar_of(form: &Form) -> Option<Scalar>
    ensures { result ≡ scalar_of (Some form.now) }
{
    match form {
        Form::Scalar(scalar) => Some(*scalar),
        _ => None,
    }
}
