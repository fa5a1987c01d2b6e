// Stores (IEC 61131-3:2003, 3.2.2).

ghost use Rattle.std.specs.Prelude.{◌≡◌, ◌++◌};
ghost use Rattle.il_syntax.specs.declared.tree.Config.{Config};
ghost use Rattle.il_syntax.specs.declared.tree.Unit.{Unit as ProgramUnit};
ghost use Rattle.il_syntax.specs.declared.tree.Reference.{Reference as Operands};
ghost use Rattle.il_statics.specs.Types.{reference_type, result_numbers, written_numbers, boolean_store_numbers, plain_store_numbers, store_type_numbers, store_numbers, index_numbers};
ghost use Rattle.il_statics.specs.Lowest.{lowest};

use crate::fault::{LowestFault, TypeFault, lower};
use crate::operands::{any_difference, difference, index_fault, reference_type};
use crate::scope::{Scope, Target};
use il_syntax::tree::{Elementary, Reference, Store};

/// 32 without a current result, and what one of another type breaks.
pub fn result_fault(before: Option<Elementary>, wanted: Elementary) -> LowestFault
    ensures { result ≡ lowest (result_numbers before wanted) }
{
    match before {
        Some(found) => difference(found, wanted),
        None => LowestFault::of(TypeFault::NoResult),
    }
}

// 33 where a place may not be written.
fn written_fault<S: Scope>(scope: &S, target: &Reference) -> LowestFault
    ensures { result ≡ lowest (written_numbers (S.config scope.now) (S.unit scope.now) target.now) }
{
    match target {
        Reference::Literal(_) => LowestFault::of(TypeFault::NotWritable),
        Reference::Variable(name) => scope.name_target(name.as_str()).written,
        Reference::Element(name, _) => scope.name_target(name.as_str()).written,
        Reference::Member(name, word) => {
            scope.written_member_fault(name.as_str(), word.as_str())
        }
    }
}

// What is known of a target.
#[tactic(auto, unfolding(il_statics::specs::Types::reference_type))]
#[inline(always)]
fn target_of<S: Scope>(scope: &S, target: &Reference) -> Target
    ensures declared { result.declared ≡ reference_type (S.config scope.now) (S.unit scope.now)
        target.now }
    ensures written { result.written ≡ lowest (written_numbers (S.config scope.now)
        (S.unit scope.now) target.now) }
{
    match target {
        Reference::Variable(name) => scope.name_target(name.as_str()),
        other => Target {
            declared: reference_type(scope, other),
            written: written_fault(scope, other),
        },
    }
}

// STN, S and R take a BOOL into a BOOL.
#[tactic(auto, using(il_statics::proofs::Lowest::lowest_append))]
fn boolean_store_fault(declared: Option<Elementary>, before: Option<Elementary>) -> LowestFault
    ensures { (config : Config) (unit : ProgramUnit) (target : Operands) → declared
        ≡ reference_type config unit target → result
        ≡ lowest (boolean_store_numbers config unit target before) }
{
    lower(
        result_fault(before, Elementary::Bool),
        any_difference(declared, Elementary::Bool),
    )
}

// ST takes a result into a place of its type.
fn plain_store_fault(declared: Option<Elementary>, before: Option<Elementary>) -> LowestFault
    ensures { (config : Config) (unit : ProgramUnit) (target : Operands) → declared
        ≡ reference_type config unit target → result
        ≡ lowest (plain_store_numbers config unit target before) }
{
    match before {
        Some(found) => any_difference(declared, found),
        None => LowestFault::of(TypeFault::NoResult),
    }
}

// What the types of a store break.
fn store_type_fault(
    store: Store,
    declared: Option<Elementary>,
    before: Option<Elementary>,
) -> LowestFault
    ensures { (config : Config) (unit : ProgramUnit) (target : Operands) → declared
        ≡ reference_type config unit target → result
        ≡ lowest (store_type_numbers config unit store target before) }
{
    match store {
        Store::Plain => plain_store_fault(declared, before),
        _ => boolean_store_fault(declared, before),
    }
}

/// What a store breaks.
#[tactic(auto, using(il_statics::proofs::Lowest::lowest_append))]
pub fn store_fault<S: Scope>(
    scope: &S,
    store: Store,
    target: &Reference,
    before: Option<Elementary>,
) -> LowestFault
    ensures { result
        ≡ lowest (store_numbers (S.config scope.now) (S.unit scope.now) store target.now before) }
{
    let Target { declared, written } = target_of(scope, target);
    lower(
        lower(index_fault(scope, target), written),
        store_type_fault(store, declared, before),
    )
}
