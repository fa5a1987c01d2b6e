// The elementary types, and the numbers that they have (IEC 61131-3:2003, 2.3.1).

ghost use Rattle.std.specs.Prelude.{◌≡◌, Some};
ghost use Rattle.il_syntax.specs.ElementaryTypes.{limits, rank_of, is_same_type, is_whole, is_counted};
ghost use Rattle.il_statics.specs.Declarations.{declared_limits, is_within, is_within_any, has_value};

use il_syntax::tree::{Elementary, Scalar, Subrange};

// The numbers from one to another.
fn between(lower: i64, upper: i64) -> Option<Subrange>
    ensures { result ≡ Some (record { lower = lower; upper = upper }) }
{
    Some(Subrange { lower, upper })
}

/// The least and the greatest number of a type; BOOL has none (2.3.1; of TIME, in milliseconds, own rule).
pub fn limits(elementary: Elementary) -> Option<Subrange>
    ensures { result ≡ limits elementary }
{
    match elementary {
        Elementary::Bool => None,
        Elementary::Sint => between(-128, 127),
        Elementary::Int => between(-32_768, 32_767),
        Elementary::Dint => between(-2_147_483_648, 2_147_483_647),
        Elementary::Usint => between(0, 255),
        Elementary::Uint => between(0, 65_535),
        Elementary::Udint => between(0, 4_294_967_295),
        Elementary::Time => between(0, 2_147_483_647),
    }
}

// The number of a type in the order of their declaration.
fn rank_of(elementary: Elementary) -> u8
    ensures { result ≡ rank_of elementary }
{
    match elementary {
        Elementary::Bool => 0,
        Elementary::Sint => 1,
        Elementary::Int => 2,
        Elementary::Dint => 3,
        Elementary::Usint => 4,
        Elementary::Uint => 5,
        Elementary::Udint => 6,
        Elementary::Time => 7,
    }
}

/// Whether two elementary types are one (2.3.1).
pub fn is_same_type(a: Elementary, b: Elementary) -> bool
    ensures { result ≡ is_same_type a b }
{
    rank_of(a) == rank_of(b)
}

/// Whether a type is one of the six whole ones (2.3.1).
pub fn is_whole(elementary: Elementary) -> bool
    ensures { result ≡ is_whole elementary }
{
    !matches!(elementary, Elementary::Bool | Elementary::Time)
}

/// Whether a type's values are numbers: those of the integer types and of TIME (2.3.1).
pub fn is_counted(elementary: Elementary) -> bool
    ensures { result ≡ is_counted elementary }
{
    !matches!(elementary, Elementary::Bool)
}

/// The limits of a scalar type: its subrange's, otherwise its base's (2.3.3.1).
pub fn declared_limits(scalar: Scalar) -> Option<Subrange>
    ensures { result ≡ declared_limits scalar }
{
    match scalar.subrange {
        Some(subrange) => Some(subrange),
        None => limits(scalar.elementary),
    }
}

/// Whether a number lies within limits.
pub fn is_within(range: Subrange, value: i64) -> bool
    ensures { result ≡ is_within range value }
{
    range.lower <= value && value <= range.upper
}

/// Whether there are limits and a number lies within them.
pub fn is_within_any(range: Option<Subrange>, value: i64) -> bool
    ensures { result ≡ is_within_any range value }
{
    match range {
        Some(limits) => is_within(limits, value),
        None => false,
    }
}

/// Whether a type has this value, so that a bare number can be a literal of it (2.2.1).
pub fn has_value(elementary: Elementary, value: i64) -> bool
    ensures { result ≡ has_value elementary value }
{
    is_within_any(limits(elementary), value)
}
