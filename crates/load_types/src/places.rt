// What arrives at places, and what a place breaks.

ghost use Rattle.std.specs.Prelude.{◌≡◌, ℕ, ◌<◌, ◌+◌, Bool, Some, option_map, length, IfOk};
ghost use Rattle.il_syntax.specs.declared.tree.Unit.{Unit as ProgramUnit};
ghost use Rattle.il_statics.specs.Types.{goes_on};
ghost use Rattle.load_types.specs.Arrivals.{join, met, held, arrive, arrive_any, ahead, target_of, next_of, hand_on, result_at, last_of, waiting_after};
ghost use Rattle.load_types.specs.Steps.{pass_on};
ghost use Rattle.load_types.specs.Faults.{label_numbers, jump_numbers, reached_numbers, place_numbers};
ghost use Rattle.il_statics.specs.Lowest.{lowest};
ghost use Rattle.load_types.specs.Places.{IsFresh};

use crate::arrival::Arrival;
use crate::fault::{LowestFault, TypeFault, lower, unless};
use crate::instructions::{type_after, typing_fault};
use crate::scope::Scope;
use il_statics::elementary::is_same_type;
use il_syntax::tree::{Condition, Elementary, Instruction, Operator, Place};
use std::alloc::{AllocError, Global};

// The type that two paths both give.
fn join(first: Option<Elementary>, second: Option<Elementary>) -> Option<Elementary>
    ensures { result ≡ join first second }
{
    match (first, second) {
        (Some(a), Some(b)) => { if is_same_type(a, b) { Some(a) } else { None } }
        (Some(_), None) => None,
        (None, _) => None,
    }
}

// A place to which something leads with this type.
fn met(arrival: Arrival, after: Option<Elementary>) -> Arrival
    ensures { result ≡ met arrival after }
{
    match arrival {
        Arrival::Unreached => Arrival::Reached(after),
        Arrival::Reached(other) => Arrival::Reached(join(other, after)),
    }
}

/// The type of the result at a place.
pub fn result_at(arrival: Arrival) -> Option<Elementary>
    ensures { result ≡ result_at arrival }
{
    match arrival {
        Arrival::Unreached => None,
        Arrival::Reached(found) => found,
    }
}

// Something leads to a place, if there is one.
fn arrive(table: &mut Vec<Arrival>, to: Option<usize>, after: Option<Elementary>)
    requires { (t : ℕ) → to ≡ Some t → t < length table.old.items }
    ensures { table.new.items ≡ arrive_any table.old.items to after }
{
    if let Some(to) = to {
        table[to] = met(table[to], after);
    }
}

// Whether the next place can follow.
fn goes_on(instruction: &Instruction) -> bool
    ensures { result ≡ goes_on instruction.now }
{
    match instruction {
        Instruction::Jump { condition, .. } => !matches!(condition, Condition::Always),
        Instruction::Return { condition } => !matches!(condition, Condition::Always),
        _ => true,
    }
}

// The next place, where it can follow.
fn next_of(at: usize, on: bool) -> Option<usize>
    requires { at < 4294967296 }
    ensures { result ≡ next_of at on }
{
    if on { Some(at + 1) } else { None }
}

// A place that is ahead.
fn ahead(at: usize, to: Option<usize>) -> Option<usize>
    ensures { result ≡ ahead at to }
{
    match to {
        Some(to) => { if at < to { Some(to) } else { None } }
        None => None,
    }
}

// The place to which an instruction can jump.
fn target_of<S: Scope>(scope: &S, at: usize, instruction: &Instruction) -> Option<usize>
    ensures { result ≡ target_of (S.unit scope.now).body at instruction.now }
{
    match instruction {
        Instruction::Jump { label, .. } => ahead(at, scope.label(label.name.as_str())),
        _ => None,
    }
}

// What a jump to this place breaks.
fn label_fault(at: usize, to: Option<usize>) -> LowestFault
    ensures { result ≡ lowest (label_numbers at to) }
{
    match to {
        Some(to) => unless(at < to, TypeFault::BackwardJump),
        None => LowestFault::of(TypeFault::UnknownLabel),
    }
}

// What an instruction breaks of 34 and 35.
fn jump_fault<S: Scope>(scope: &S, at: usize, instruction: &Instruction) -> LowestFault
    ensures { result ≡ lowest (jump_numbers (S.unit scope.now).body at instruction.now) }
{
    match instruction {
        Instruction::Jump { label, .. } => label_fault(at, scope.label(label.name.as_str())),
        _ => LowestFault::none(),
    }
}

// 39 where nothing leads to a place.
fn reached_fault(arrival: Arrival) -> LowestFault
    ensures { result ≡ lowest (reached_numbers arrival) }
{
    match arrival {
        Arrival::Unreached => LowestFault::of(TypeFault::Unreachable),
        Arrival::Reached(_) => LowestFault::none(),
    }
}

/// The lowest number that the instruction at a place breaks.
#[tactic(auto, using(il_statics::proofs::Lowest::lowest_append))]
pub fn place_fault<S: Scope>(
    alloc: Global,
    scope: &S,
    at: usize,
    instruction: &Instruction,
    arrival: Arrival,
    deferred: Option<(Operator, Option<Elementary>)>,
) -> Result<LowestFault, AllocError>
    ensures { IfOk result (λ f. f ≡ lowest
        (place_numbers (S.config scope.now) (S.unit scope.now) at instruction.now arrival
        deferred)) }
{
    let typing = typing_fault(alloc, scope, instruction, result_at(arrival), deferred)?;
    Ok(lower(
        typing,
        lower(jump_fault(scope, at, instruction), reached_fault(arrival)),
    ))
}

// The operator that waits.
fn waiting_operator(deferred: Option<(Operator, Option<Elementary>)>) -> Option<Operator>
    ensures { result ≡ option_map (λ d. d.0) deferred }
{
    match deferred {
        Some((operator, _)) => Some(operator),
        None => None,
    }
}

/// Hands on what a place leaves.
pub fn pass_on<S: Scope>(
    scope: &S,
    at: usize,
    instruction: &Instruction,
    arrival: Arrival,
    deferred: Option<(Operator, Option<Elementary>)>,
    table: &mut Vec<Arrival>,
)
    requires room { at < 4294967296 }
    requires low { at + 1 < length table.old.items }
    requires targets { (t : ℕ) → target_of (S.unit scope.now).body at instruction.now ≡ Some t
        → t < length table.old.items }
    ensures { table.new.items ≡ pass_on (S.config scope.now) (S.unit scope.now) at instruction.now
        arrival deferred table.old.items }
{
    if let Arrival::Reached(before) = arrival {
        let after = type_after(scope, waiting_operator(deferred), instruction, before);
        arrive(table, next_of(at, goes_on(instruction)), after);
        arrive(table, target_of(scope, at, instruction), after);
    }
}

/// The innermost that waits for its `)`.
pub fn innermost(
    waiting: &[(Operator, Option<Elementary>)],
) -> Option<(Operator, Option<Elementary>)>
    ensures { result ≡ last_of waiting.now }
{
    waiting.last().copied()
}

/// What waits after an instruction.
pub fn set_aside(
    waiting: &mut Vec<(Operator, Option<Elementary>)>,
    instruction: &Instruction,
    before: Option<Elementary>,
) -> Result<(), AllocError>
    ensures { IfOk result (λ _. waiting.new.items
        ≡ waiting_after instruction.now before waiting.old.items) }
{
    match instruction {
        Instruction::Defer { operator, .. } => waiting.push((*operator, before))?,
        Instruction::Evaluate => {
            waiting.pop();
        }
        _ => {}
    }
    Ok(())
}

/// The table at the entry.
pub fn fresh(alloc: Global, count: usize) -> Result<Vec<Arrival>, AllocError>
    ensures { IfOk result (λ table. IsFresh count table.items) }
{
    let mut table = Vec::new(alloc);
    table.push(Arrival::Reached(None))?;
    for _ in 0..count {
        table.push(Arrival::Unreached)?;
    }
    Ok(table)
}
