// Types of operands (IEC 61131-3:2003, 3.2.2).

ghost use Rattle.std.specs.Prelude.{◌≡◌};
ghost use Rattle.il_statics.specs.Declarations as rules;
ghost use Rattle.il_statics.specs.Types.{difference_numbers, any_difference_numbers, bare_numbers, literal_numbers, literal_type, loaded_type, reference_type, index_type_numbers, index_numbers, wanted_numbers, maybe_wanted_numbers, unfit_numbers, loaded_literal_numbers, loaded_numbers};
ghost use Rattle.il_statics.specs.Lowest.{lowest};

use crate::fault::{LowestFault, TypeFault, lower, unless};
use crate::scope::Scope;
use il_statics::elementary::{has_value, is_same_type, is_whole};
use il_syntax::tree::{Elementary, Index, Literal, Reference};

/// 30 where the kinds differ, 31 where two integer types do.
pub fn difference(found: Elementary, wanted: Elementary) -> LowestFault
    ensures { result ≡ lowest (difference_numbers found wanted) }
{
    if is_same_type(found, wanted) {
        LowestFault::none()
    } else if is_whole(found) && is_whole(wanted) {
        LowestFault::of(TypeFault::WrongType)
    } else {
        LowestFault::of(TypeFault::WrongKind)
    }
}

/// How a type differs from the wanted one, where there is a type.
pub fn any_difference(found: Option<Elementary>, wanted: Elementary) -> LowestFault
    ensures { result ≡ lowest (any_difference_numbers found wanted) }
{
    match found {
        Some(found) => difference(found, wanted),
        None => LowestFault::none(),
    }
}

// What a literal breaks where a type is wanted.
fn literal_fault(literal: Literal, wanted: Elementary) -> LowestFault
    ensures { result ≡ lowest (literal_numbers literal wanted) }
{
    match literal {
        Literal::Truth(_) => difference(Elementary::Bool, wanted),
        Literal::Bare(value) => bare_fault(wanted, has_value(wanted, value)),
        Literal::Whole(elementary, _) => difference(elementary, wanted),
        Literal::Time(_) => difference(Elementary::Time, wanted),
    }
}

// 30 where a bare literal means no integer type, 31 where its value is not one of the type.
fn bare_fault(wanted: Elementary, fits: bool) -> LowestFault
    ensures { result ≡ lowest (bare_numbers wanted (rules.unless fits 31)) }
{
    if is_whole(wanted) {
        unless(fits, TypeFault::WrongType)
    } else {
        LowestFault::of(TypeFault::WrongKind)
    }
}

// A literal's type where none is wanted: a bare number is INT where it fits, otherwise DINT where it fits.
fn literal_type(literal: Literal) -> Option<Elementary>
    ensures { result ≡ literal_type literal }
{
    match literal {
        Literal::Truth(_) => Some(Elementary::Bool),
        Literal::Bare(value) => {
            if has_value(Elementary::Int, value) {
                Some(Elementary::Int)
            } else if has_value(Elementary::Dint, value) {
                Some(Elementary::Dint)
            } else {
                None
            }
        }
        Literal::Whole(elementary, _) => Some(elementary),
        Literal::Time(_) => Some(Elementary::Time),
    }
}

/// The type of what an operand names; a literal names nothing.
#[tactic(auto, unfolding(il_statics::specs::Types::reference_type))]
#[inline(always)]
pub fn reference_type<S: Scope>(scope: &S, reference: &Reference) -> Option<Elementary>
    ensures { result ≡ reference_type (S.config scope.now) (S.unit scope.now) reference.now }
{
    match reference {
        Reference::Literal(_) => None,
        Reference::Variable(name) => scope.name_type(name.as_str()),
        Reference::Element(name, _) => scope.element_type(name.as_str()),
        Reference::Member(name, word) => scope.member_type(name.as_str(), word.as_str()),
    }
}

/// The type that LD leaves, a short form, and each input of SEL.
#[inline(always)]
pub fn loaded_type<S: Scope>(scope: &S, reference: &Reference) -> Option<Elementary>
    ensures { result ≡ loaded_type (S.config scope.now) (S.unit scope.now) reference.now }
{
    match reference {
        Reference::Literal(literal) => literal_type(*literal),
        other => reference_type(scope, other),
    }
}

// 30 where an index variable has no integer type.
fn index_type_fault(found: Option<Elementary>) -> LowestFault
    ensures { result ≡ lowest (index_type_numbers found) }
{
    match found {
        Some(found) => unless(is_whole(found), TypeFault::WrongKind),
        None => LowestFault::none(),
    }
}

/// What an operand's index breaks.
pub fn index_fault<S: Scope>(scope: &S, reference: &Reference) -> LowestFault
    ensures { result ≡ lowest (index_numbers (S.config scope.now) (S.unit scope.now)
        reference.now) }
{
    match reference {
        Reference::Element(_, Index::Variable(name)) => {
            index_type_fault(scope.name_type(name.as_str()))
        }
        _ => LowestFault::none(),
    }
}

/// What an operand breaks where a type is wanted.
#[inline(always)]
#[tactic(auto, using(il_statics::proofs::Lowest::lowest_append))]
pub fn wanted_fault<S: Scope>(scope: &S, reference: &Reference, wanted: Elementary) -> LowestFault
    ensures { result ≡ lowest (wanted_numbers (S.config scope.now) (S.unit scope.now)
        reference.now wanted) }
{
    match reference {
        Reference::Literal(literal) => literal_fault(*literal, wanted),
        other => lower(
            index_fault(scope, other),
            any_difference(reference_type(scope, other), wanted),
        ),
    }
}

/// What an operand breaks where a type is wanted, or where none is known.
#[inline(always)]
pub fn maybe_wanted_fault<S: Scope>(
    scope: &S,
    reference: &Reference,
    wanted: Option<Elementary>,
) -> LowestFault
    ensures { result ≡ lowest (maybe_wanted_numbers (S.config scope.now) (S.unit scope.now)
        reference.now wanted) }
{
    match wanted {
        Some(wanted) => wanted_fault(scope, reference, wanted),
        None => index_fault(scope, reference),
    }
}

// 31 where a literal that is loaded has no type.
fn unfit_fault(loaded: Option<Elementary>) -> LowestFault
    ensures { result ≡ lowest (unfit_numbers loaded) }
{
    match loaded {
        Some(_) => LowestFault::none(),
        None => LowestFault::of(TypeFault::WrongType),
    }
}

// What a literal breaks that is loaded.
fn loaded_literal_fault(reference: &Reference) -> LowestFault
    ensures { result ≡ lowest (loaded_literal_numbers reference.now) }
{
    match reference {
        Reference::Literal(literal) => unfit_fault(literal_type(*literal)),
        _ => LowestFault::none(),
    }
}

/// What an operand breaks that is loaded.
#[tactic(auto, using(il_statics::proofs::Lowest::lowest_append))]
pub fn loaded_fault<S: Scope>(scope: &S, reference: &Reference) -> LowestFault
    ensures { result ≡ lowest (loaded_numbers (S.config scope.now) (S.unit scope.now)
        reference.now) }
{
    lower(
        index_fault(scope, reference),
        loaded_literal_fault(reference),
    )
}
