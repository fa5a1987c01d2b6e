// What is known of values and of what operations make of them.

ghost use Rattle.std.specs.Prelude.{◌≡◌, pos, option_map, option_and_then};
ghost use Rattle.il_syntax.specs.declared.tree.Operator.TheVariants.{Arithmetic as OfArithmetic, Comparison as OfComparison};
ghost use Rattle.ranges_interval.specs.Interval.{IsOperand};
ghost use Rattle.il_semantics.specs.Step.{takes};
ghost use Rattle.ranges_transfer.specs.Kinds.{IsDivision};
ghost use Rattle.il_statics.specs.Types.{literal_type};
ghost use Rattle.il_semantics.specs.Meaning.{or_dint};
ghost use Rattle.il_semantics.specs.Annotation.{interval, only, numbers_of, range, declared_known};
ghost use Rattle.ranges_laws.specs.Facts.{IsFineKnown};
ghost use Rattle.ranges_laws.specs.Found.{is_part, fits, fitting, found_literal, fits_range, found_loaded, combined, compares_flags, found_operated};
ghost use Rattle.ranges_laws.specs.Steps.{flag_there};

use il_semantics::known::Known;
use il_statics::elementary::{
    declared_limits, has_value, is_counted, is_same_type, is_whole, limits,
};
use il_syntax::tree::{Arithmetic, Comparison, Elementary, Literal, Operator, Scalar, Subrange};
use ranges_interval::Interval;

// The numbers of limits, if there are some.
fn range_of(limits: Option<Subrange>) -> Option<Interval>
    ensures { result ≡ option_map interval limits }
{
    match limits {
        Some(limits) => Some(range_of_bounds(limits)),
        None => None,
    }
}

/// The numbers of an array's bounds.
pub fn range_of_bounds(bounds: Subrange) -> Interval
    ensures { result ≡ interval bounds }
{
    Interval {
        lo: i128::from(bounds.lower),
        hi: i128::from(bounds.upper),
    }
}

/// The numbers of a scalar type, if it has some.
pub fn range(scalar: Scalar) -> Option<Interval>
    ensures { result ≡ range scalar }
{
    range_of(declared_limits(scalar))
}

/// What the declaration of a scalar says of its value.
pub fn known_of(scalar: Scalar) -> Known
    ensures { result ≡ declared_known scalar }
{
    match range(scalar) {
        Some(declared) => Known::Ranged(scalar.elementary, declared),
        None => Known::Flag,
    }
}

/// Whether a range lies in another.
pub fn is_part(inner: Interval, outer: Interval) -> bool
    ensures { result ≡ is_part inner outer }
{
    inner.within(outer)
}

// Whether a range lies in another, if that is there.
fn fits(outer: Option<Interval>, inner: Interval) -> bool
    ensures { result ≡ fits outer inner }
{
    match outer {
        Some(outer) => is_part(inner, outer),
        None => false,
    }
}

/// A range of a type, if it lies in it.
pub fn fitting(elementary: Elementary, found: Interval) -> Option<Known>
    ensures { result ≡ fitting elementary found }
{
    if fits(range_of(limits(elementary)), found) {
        Some(Known::Ranged(elementary, found))
    } else {
        None
    }
}

/// The range of one number.
pub fn only(number: i64) -> Interval
    ensures { result ≡ only number }
{
    let number = i128::from(number);
    Interval {
        lo: number,
        hi: number,
    }
}

/// The type that a literal has where none is wanted: a bare number is INT where it fits, otherwise DINT.
pub fn literal_type(literal: Literal) -> Elementary
    ensures { result ≡ or_dint (literal_type literal) }
{
    match literal {
        Literal::Truth(_) => Elementary::Bool,
        Literal::Bare(number) => {
            if has_value(Elementary::Int, number) {
                Elementary::Int
            } else {
                Elementary::Dint
            }
        }
        Literal::Whole(elementary, _) => elementary,
        Literal::Time(_) => Elementary::Time,
    }
}

/// What is known of a literal, if it is a value of its type; a bare one has the type that is given.
pub fn found_literal(elementary: Elementary, literal: Literal) -> Option<Known>
    ensures { result ≡ found_literal elementary literal }
{
    match literal {
        Literal::Truth(_) => Some(Known::Flag),
        Literal::Bare(number) => {
            if is_whole(elementary) {
                fitting(elementary, only(number))
            } else {
                None
            }
        }
        Literal::Whole(written, number) => fitting(written, only(number)),
        Literal::Time(number) => fitting(Elementary::Time, only(number)),
    }
}

/// Whether every such value may be stored in the scalar.
pub fn fits_range(scalar: Scalar, known: Known) -> bool
    ensures { result ≡ fits_range scalar.elementary (range scalar) known }
{
    match (range(scalar), known) {
        (None, Known::Flag) => true,
        (Some(declared), Known::Ranged(elementary, found)) => {
            is_same_type(elementary, scalar.elementary) && is_part(found, declared)
        }
        _ => false,
    }
}

/// The current result, if it is a Boolean.
pub fn flag_there(found: Option<Known>) -> Option<Known>
    ensures { result ≡ flag_there found }
{
    match found {
        Some(Known::Flag) => Some(Known::Flag),
        _ => None,
    }
}

/// What LD and LDN make of an operand.
pub fn found_loaded(negated: bool, known: Known) -> Option<Known>
    ensures { result ≡ found_loaded negated known }
{
    match (negated, known) {
        (false, known) => Some(known),
        (true, Known::Flag) => Some(Known::Flag),
        (true, Known::Ranged(_, _)) => None,
    }
}

/// Whether a range may be 0.
pub fn may_be_zero(range: Interval) -> bool
    ensures { result ≡ is_part (only (pos 0)) range }
{
    is_part(only(0), range)
}

// The range of a quotient or remainder, unless the divisor may be 0.
fn divided(kind: Arithmetic, left: Interval, right: Interval) -> Option<Interval>
    requires divides { IsDivision kind }
    requires left { IsOperand left }
    requires right { IsOperand right }
    ensures { result ≡ combined kind left right }
{
    if may_be_zero(right) {
        return None;
    }
    match kind {
        Arithmetic::Div => Some(left.div(right)),
        Arithmetic::Mod => Some(left.mod_(right)),
        _ => unreachable!(),
    }
}

// The range of an operation, unless a divisor may be 0.
fn combined(kind: Arithmetic, left: Interval, right: Interval) -> Option<Interval>
    requires left { IsOperand left }
    requires right { IsOperand right }
    ensures { result ≡ combined kind left right }
{
    match kind {
        Arithmetic::Add => Some(left.add(right)),
        Arithmetic::Sub => Some(left.sub(right)),
        Arithmetic::Mul => Some(left.mul(right)),
        kind => divided(kind, left, right),
    }
}

// Whether an operator takes a type (2.5.1.5.2; TIME has sums and differences alone).
fn takes(kind: Arithmetic, elementary: Elementary) -> bool
    ensures { result ≡ takes kind elementary }
{
    match kind {
        Arithmetic::Add => is_counted(elementary),
        Arithmetic::Sub => is_counted(elementary),
        _ => is_whole(elementary),
    }
}

// The range of an operation, if it lies in its type.
fn calculated(
    kind: Arithmetic,
    elementary: Elementary,
    left: Interval,
    right: Interval,
) -> Option<Known>
    requires left { IsOperand left }
    requires right { IsOperand right }
    ensures { result ≡ option_and_then (fitting elementary) (combined kind left right) }
{
    fitting(elementary, combined(kind, left, right)?)
}

// EQ and NE alone compare Booleans.
fn compares_flags(kind: Comparison) -> bool
    ensures { result ≡ compares_flags kind }
{
    matches!(kind, Comparison::Equal | Comparison::NotEqual)
}

// What an arithmetic operator makes of the result and an operand.
fn arithmetic(kind: Arithmetic, left: Known, right: Known) -> Option<Known>
    requires left { IsFineKnown left }
    requires right { IsFineKnown right }
    ensures { result ≡ found_operated (OfArithmetic kind) left right }
{
    let (Known::Ranged(elementary, left), Known::Ranged(other, right)) = (left, right) else {
        return None;
    };
    if takes(kind, elementary) && is_same_type(elementary, other) {
        calculated(kind, elementary, left, right)
    } else {
        None
    }
}

// What a comparison makes of the result and an operand.
fn compared(kind: Comparison, left: Known, right: Known) -> Option<Known>
    ensures { result ≡ found_operated (OfComparison kind) left right }
{
    let comparable = match (left, right) {
        (Known::Ranged(elementary, _), Known::Ranged(other, _)) => is_same_type(elementary, other),
        (Known::Flag, Known::Flag) => compares_flags(kind),
        _ => false,
    };
    if comparable { Some(Known::Flag) } else { None }
}

/// What an operator makes of the result and an operand.
pub fn found_operated(operator: Operator, left: Known, right: Known) -> Option<Known>
    requires left { IsFineKnown left }
    requires right { IsFineKnown right }
    ensures { result ≡ found_operated operator left right }
{
    match operator {
        Operator::Logic { .. } => match (left, right) {
            (Known::Flag, Known::Flag) => Some(Known::Flag),
            _ => None,
        },
        Operator::Arithmetic(kind) => arithmetic(kind, left, right),
        Operator::Comparison(kind) => compared(kind, left, right),
    }
}
