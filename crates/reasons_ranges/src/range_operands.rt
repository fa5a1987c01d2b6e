// What operands are: their types and their ranges.

ghost use Rattle.std.specs.Prelude.{◌≡◌, Option, Some, option_map, option_and_then};
ghost use Rattle.il_syntax.specs.declared.tree.Config.{Config};
ghost use Rattle.il_syntax.specs.declared.tree.Form.{Form};
ghost use Rattle.il_statics.specs.Names.{form_named};
ghost use Rattle.il_semantics.specs.Annotation.{only, range};
ghost use Rattle.load_scope.specs.Views.{type_of};
ghost use Rattle.reasons_ranges.specs.RangeReasons.{element_of, bounds_of, scalar_named, literal_range, range_at, lies_within, lies_in};

use il_syntax::tree::{Literal, Reference, Scalar, Subrange};
use load_scope::UnitScope;
use load_scope::entry::VariableType;
use ranges_interval::Interval;
use ranges_pass::PlaceFacts;
use ranges_transfer::range;

// The type of the elements of an array.
fn element_type(declared: VariableType) -> Option<Scalar>
    ensures { (config : Config) (form : Form) → declared ≡ type_of config form → result
        ≡ element_of (Some form) }
{
    match declared {
        VariableType::Array { element, .. } => Some(element),
        _ => None,
    }
}

// The type of the elements of an array, if it is one.
fn element_of(declared: Option<VariableType>) -> Option<Scalar>
    ensures { (config : Config) (form : Option Form) → declared ≡ option_map (type_of config) form
        → result ≡ element_of form }
{
    match declared {
        Some(declared) => element_type(declared),
        None => None,
    }
}

// The bounds of an array.
fn array_bounds(declared: VariableType) -> Option<Subrange>
    ensures { (config : Config) (form : Form) → declared ≡ type_of config form → result
        ≡ bounds_of (Some form) }
{
    match declared {
        VariableType::Array { bounds, .. } => Some(bounds),
        _ => None,
    }
}

// The bounds of an array, if it is one.
fn bounds_of(declared: Option<VariableType>) -> Option<Subrange>
    ensures { (config : Config) (form : Option Form) → declared ≡ option_map (type_of config) form
        → result ≡ bounds_of form }
{
    match declared {
        Some(declared) => array_bounds(declared),
        None => None,
    }
}

// The type of the elements of the array of a name.
fn element_named(unit: &UnitScope, name: &str) -> Option<Scalar>
    ensures { result ≡ element_of (form_named unit.now.config unit.now.unit name.now) }
{
    element_of(unit.declared_type(name))
}

/// The bounds of the array of a name.
pub fn bounds_named(unit: &UnitScope, name: &str) -> Option<Subrange>
    ensures { result ≡ bounds_of (form_named unit.now.config unit.now.unit name.now) }
{
    bounds_of(unit.declared_type(name))
}

/// The scalar type of what an operand names.
pub fn scalar_named(unit: &UnitScope, reference: &Reference) -> Option<Scalar>
    ensures { result ≡ scalar_named unit.now reference.now }
{
    match reference {
        Reference::Literal(_) => None,
        Reference::Variable(name) => unit.scalar(name.as_str()),
        Reference::Element(name, _) => element_named(unit, name.as_str()),
        Reference::Member(name, word) => unit.member_scalar(name.as_str(), word.as_str()),
    }
}

/// Whether a range lies within limits.
pub fn lies_within(range: Interval, limits: Subrange) -> bool
    ensures { result ≡ lies_within range limits }
{
    i128::from(limits.lower) <= range.lo && range.hi <= i128::from(limits.upper)
}

/// Whether a range lies within limits that may not be there.
pub fn lies_in(range: Interval, limits: Option<Subrange>) -> bool
    ensures { result ≡ lies_in range limits }
{
    match limits {
        Some(limits) => lies_within(range, limits),
        None => true,
    }
}

/// One number.
pub fn only(number: i64) -> Interval
    ensures { result ≡ only number }
{
    Interval {
        lo: i128::from(number),
        hi: i128::from(number),
    }
}

// The range of a literal.
fn literal_range(literal: Literal) -> Option<Interval>
    ensures { result ≡ literal_range literal }
{
    match literal {
        Literal::Truth(_) => None,
        Literal::Bare(number) => Some(only(number)),
        Literal::Whole(_, number) => Some(only(number)),
        Literal::Time(number) => Some(only(number)),
    }
}

// The range of a scalar type, if there is one.
fn declared_range(scalar: Option<Scalar>) -> Option<Interval>
    ensures { result ≡ option_and_then range scalar }
{
    match scalar {
        Some(scalar) => range(scalar),
        None => None,
    }
}

/// The range of an operand, as far as it is known: of a variable what is known of it, of an element and a member the
/// declared range.
pub fn range_at(unit: &UnitScope, known: &PlaceFacts, reference: &Reference) -> Option<Interval>
    ensures { result ≡ range_at unit.now known.now reference.now }
{
    match reference {
        Reference::Literal(literal) => literal_range(*literal),
        Reference::Variable(name) => known.range(name.as_str()),
        Reference::Element(_, _) => declared_range(scalar_named(unit, reference)),
        Reference::Member(_, _) => declared_range(scalar_named(unit, reference)),
    }
}
