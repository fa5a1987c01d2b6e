// The rules of written types and initial values.

ghost use Rattle.std.specs.Prelude.{◌≡◌, ◌++◌, ◌&&◌, pos, int_le, int_lt, ◌-ℤ◌};
ghost use Rattle.il_syntax.specs.declared.tree.Form.TheVariants.{Scalar as OfScalar};
ghost use Rattle.il_syntax.specs.declared.tree.Elementary.TheVariants.{Int};
ghost use Rattle.il_statics.specs.Declarations.{unless, subrange_numbers, bounds_numbers, admits_arrays, admits_instances, has_value, instance_numbers, type_numbers, initial_numbers, written_type, is_of_type, literal_lies_in};
ghost use Rattle.il_statics.specs.Names.{block_variables};
ghost use Rattle.il_statics.specs.Least.{IsLeast};
ghost use Rattle.load_declarations.specs.Places.{lowest_at, Among};
ghost use Rattle.load_declarations.specs.Written.{shown, BreaksInitial, Misdeclared};

use crate::fault::DeclareFault;
use il_statics::elementary::{declared_limits, has_value, is_same_type, is_whole, is_within_any};
use il_statics::{Found, earlier, fault_if};
use il_syntax::tree::{
    Declaration, Elementary, Form, Initial, Literal, Place, Scalar, Subrange, WrittenType,
};
use load_scope::Scoped;

/// Which types a list of declarations admits (own rule).
#[derive(Clone, Copy)]
pub enum Admitted {
    ScalarsAlone,
    ScalarsAndArrays,
    AllForms,
}

/// The first fault of the types and initial values of declarations.
pub fn declarations_fault(
    names: &Scoped,
    admitted: Admitted,
    declarations: &[Declaration],
) -> Option<Found<DeclareFault>>
    ensures { IsLeast result (Among (Misdeclared names.now (shown admitted)) declarations.now) }
{
    let mut found = None;
    for declaration in declarations {
        found = earlier(found, declaration_fault(names, admitted, declaration));
    }
    found
}

// The fault of a declaration's type or of its initial value.
fn declaration_fault(
    names: &Scoped,
    admitted: Admitted,
    declaration: &Declaration,
) -> Option<Found<DeclareFault>>
    ensures { IsLeast result (Misdeclared names.now (shown admitted) declaration.now) }
{
    let mistyped = type_fault(names, admitted, &declaration.declared);
    let misvalued = initial_fault(&declaration.declared.form, declaration.initial);
    earlier(mistyped, misvalued)
}

// What a written type breaks (2.3.3.1, 2.4.3).
#[tactic(auto, unfolding(il_statics::specs::Declarations::type_numbers), using(crate::proofs::Lowest::at_append))]
fn type_fault(
    names: &Scoped,
    admitted: Admitted,
    declared: &WrittenType,
) -> Option<Found<DeclareFault>>
    ensures { result ≡ lowest_at (type_numbers names.now (shown admitted) declared.now.form)
        declared.now.place }
{
    let place = declared.place;
    match &declared.form {
        Form::Scalar(scalar) => subrange_fault(*scalar, place),
        Form::Array { bounds, element } => array_fault(admitted, *bounds, *element, place),
        Form::Block(name) => instance_fault(names, admitted, name.as_str(), place),
    }
}

// What an array's type breaks.
fn array_fault(
    admitted: Admitted,
    bounds: Subrange,
    element: Scalar,
    place: Place,
) -> Option<Found<DeclareFault>>
    ensures { result ≡ lowest_at (unless (admits_arrays (shown admitted)) 25
        ++ bounds_numbers bounds ++ subrange_numbers element.elementary element.subrange) place }
{
    let misplaced = fault_if(!admits_arrays(admitted), DeclareFault::TypeDiffers, place);
    earlier(
        earlier(misplaced, bounds_fault(bounds, place)),
        subrange_fault(element, place),
    )
}

// Whether arrays are admitted.
fn admits_arrays(admitted: Admitted) -> bool
    ensures { result ≡ admits_arrays (shown admitted) }
{
    match admitted {
        Admitted::ScalarsAlone => false,
        Admitted::ScalarsAndArrays | Admitted::AllForms => true,
    }
}

// Whether instances are admitted.
fn admits_instances(admitted: Admitted) -> bool
    ensures { result ≡ admits_instances (shown admitted) }
{
    match admitted {
        Admitted::ScalarsAlone | Admitted::ScalarsAndArrays => false,
        Admitted::AllForms => true,
    }
}

// What the bounds of an array break: they are INT, in order, and of at most 256 elements.
#[tactic(auto, using(crate::proofs::Lowest::at_unless))]
fn bounds_fault(bounds: Subrange, place: Place) -> Option<Found<DeclareFault>>
    ensures { result ≡ lowest_at (bounds_numbers bounds) place }
{
    fault_if(!are_bounds(bounds), DeclareFault::EmptyRange, place)
}

// Whether bounds are those of an array.
fn are_bounds(bounds: Subrange) -> bool
    ensures { result ≡ (has_value Int bounds.lower && has_value Int bounds.upper && int_le
        bounds.lower bounds.upper && int_lt (bounds.upper -ℤ bounds.lower) (pos 256)) }
{
    has_value(Elementary::Int, bounds.lower)
        && has_value(Elementary::Int, bounds.upper)
        && bounds.lower <= bounds.upper
        && has_few(bounds)
}

// Whether bounds are less than 256 apart.
fn has_few(bounds: Subrange) -> bool
    ensures { result ≡ int_lt (bounds.upper -ℤ bounds.lower) (pos 256) }
{
    i128::from(bounds.upper) - i128::from(bounds.lower) < 256
}

/// What a subrange breaks: it is of an integer type, within it and not empty (2.3.3.1).
pub fn subrange_fault(scalar: Scalar, place: Place) -> Option<Found<DeclareFault>>
    ensures { result ≡ lowest_at (subrange_numbers scalar.elementary scalar.subrange) place }
{
    let Some(subrange) = scalar.subrange else {
        return None;
    };
    if !is_whole(scalar.elementary) {
        return fault_if(true, DeclareFault::TypeDiffers, place);
    }
    let fits = has_value(scalar.elementary, subrange.lower)
        && has_value(scalar.elementary, subrange.upper)
        && subrange.lower <= subrange.upper;
    fault_if(!fits, DeclareFault::EmptyRange, place)
}

// What a type's name breaks: it is a block's, where instances are admitted (2.5.2.1).
fn instance_fault(
    names: &Scoped,
    admitted: Admitted,
    name: &str,
    place: Place,
) -> Option<Found<DeclareFault>>
    ensures { result ≡ lowest_at (instance_numbers (shown admitted)
        (block_variables names.now name.now)) place }
{
    if names.block(name).is_none() {
        return fault_if(true, DeclareFault::Unknown, place);
    }
    fault_if(
        !admits_instances(admitted),
        DeclareFault::TypeDiffers,
        place,
    )
}

// What an initial value breaks.
fn initial_fault(form: &Form, initial: Option<Initial>) -> Option<Found<DeclareFault>>
    ensures { IsLeast result (BreaksInitial form.now initial) }
{
    match initial {
        Some(initial) => literal_fault(form, initial),
        None => None,
    }
}

// What a literal breaks: it is of the declared scalar type and lies in it (2.4.3.2).
fn literal_fault(form: &Form, initial: Initial) -> Option<Found<DeclareFault>>
    ensures { result ≡ lowest_at (initial_numbers form.now initial.literal) initial.place }
{
    match form {
        Form::Scalar(scalar) => scalar_fault(*scalar, initial),
        _ => fault_if(true, DeclareFault::TypeDiffers, initial.place),
    }
}

// What a literal of a scalar type breaks.
fn scalar_fault(scalar: Scalar, initial: Initial) -> Option<Found<DeclareFault>>
    ensures { result ≡ lowest_at (initial_numbers (OfScalar scalar) initial.literal) initial.place }
{
    if !is_of_type(scalar.elementary, written_type(initial.literal)) {
        return fault_if(true, DeclareFault::TypeDiffers, initial.place);
    }
    let lies = literal_lies_in(declared_limits(scalar), initial.literal);
    fault_if(!lies, DeclareFault::InitOutOfRange, initial.place)
}

// The type written before or shown by a literal; a bare number has none (2.2).
fn written_type(literal: Literal) -> Option<Elementary>
    ensures { result ≡ written_type literal }
{
    match literal {
        Literal::Truth(_) => Some(Elementary::Bool),
        Literal::Bare(_) => None,
        Literal::Whole(elementary, _) => Some(elementary),
        Literal::Time(_) => Some(Elementary::Time),
    }
}

// Whether a literal with this type written can be a value of a type.
fn is_of_type(elementary: Elementary, written: Option<Elementary>) -> bool
    ensures { result ≡ is_of_type elementary written }
{
    match written {
        Some(other) => is_same_type(elementary, other),
        None => is_whole(elementary),
    }
}

// Whether a literal's value lies within limits.
fn literal_lies_in(range: Option<Subrange>, literal: Literal) -> bool
    ensures { result ≡ literal_lies_in range literal }
{
    match literal {
        Literal::Truth(_) => true,
        Literal::Bare(value) => is_within_any(range, value),
        Literal::Whole(_, value) => is_within_any(range, value),
        Literal::Time(value) => is_within_any(range, value),
    }
}
