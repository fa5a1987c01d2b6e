// What each instruction hands on (IEC 61131-3:2003, 3.2.2, 3.2.3).

ghost use Rattle.std.specs.Prelude.{◌≡◌, ◌∷◌, Some, None, true, option_map, IfOk};
ghost use Rattle.il_statics.specs.Types.{label_place};
ghost use Rattle.ranges_laws.specs.Found.{provided, fits_target};
ghost use Rattle.ranges_laws.specs.Facts.{facts as facts_of, IsFine, IsFineResult, AreFineDeferred};
ghost use Rattle.ranges_laws.specs.Steps.{to_next, giving, deferred, stored_row, has_condition, passing, jumping_to, is_bare, moves_of_store, moves_of_defer, moves_of_evaluate, moves_of_call, moves_of};
ghost use Rattle.ranges_transfer.specs.Scopes.{denoted, moves_of_calling};
ghost use Rattle.ranges_transfer.specs.Tables.{moved};
ghost use Rattle.ranges_transfer.specs.Kinds.{GivesResult, GoesOnAlone, stored_value, first_loaded};

use crate::blocks::called;
use crate::calls::invoked;
use crate::carried::Carried;
use crate::known::{flag_there, found_operated};
use crate::meant::{store_in, target_fits};
use crate::operands::{loaded, loaded_operand, operated};
use crate::pass::Handed;
use crate::scope::Scope;
use il_semantics::known::{Known, KnownDeferred};
use il_syntax::tree::{Argument, Condition, Instruction, Operand, Operator, Reference, Store};
use ranges_laws::facts::Facts;
use std::alloc::{AllocError, Global};

/// C and CN ask for a Boolean.
pub fn has_condition(condition: Condition, found: Option<Known>) -> bool
    ensures { result ≡ has_condition condition found }
{
    match (condition, found) {
        (Condition::Always, _) => true,
        (_, Some(Known::Flag)) => true,
        _ => false,
    }
}

// The value that a store takes.
fn stored_value(store: Store, found: Option<Known>) -> Option<Known>
    ensures { result ≡ stored_value store found }
{
    match store {
        Store::Plain => found,
        _ => flag_there(found),
    }
}

// Keeps what is stored, if the target takes it.
#[tactic(auto, using(crate::proofs::Resolved::target_is))]
fn keep<S: Scope>(scope: &S, facts: &mut Facts, target: &Reference, known: Known) -> bool
    ensures fits { result ≡ fits_target (S.names scope.now) facts.old.row
        (denoted (S.names scope.now) target.now) known }
    ensures row { result ≡ true → facts.new.row
        ≡ stored_row (S.names scope.now) (denoted (S.names scope.now) target.now) known
        facts.old.row }
    ensures result { facts.new.result ≡ facts.old.result }
    ensures deferred { facts.new.deferred ≡ facts.old.deferred }
{
    let meant = scope.meant(target);
    if !target_fits(&facts.row, meant, known) {
        return false;
    }
    store_in(&mut facts.row, meant, known);
    true
}

// The facts after a store.
fn stored<S: Scope>(scope: &S, facts: Carried, store: Store, target: &Reference) -> Option<Carried>
    ensures { moves_of_store (S.names scope.now) facts store
        (denoted (S.names scope.now) target.now) ≡ option_map to_next result }
{
    let known = stored_value(store, facts.kept.result)?;
    let mut facts = facts;
    if keep(scope, &mut *facts.kept, target, known) {
        Some(facts)
    } else {
        None
    }
}

// What a short form loads, and nothing where there is none.
fn first_operand<S: Scope>(
    scope: &S,
    facts: &Carried,
    first: &Option<Operand>,
) -> Option<Option<Known>>
    requires { IsFine (S.names scope.now) facts.now }
    ensures { result ≡ first_loaded (S.names scope.now) facts.now.row first.now }
{
    match first {
        Some(operand) => {
            let known = loaded_operand(scope, &facts.kept.row, &operand.reference)?;
            Some(Some(known))
        }
        None => Some(None),
    }
}

// Sets an operator and its left operand aside, and goes on with this result.
fn put_aside(
    facts: &mut Facts,
    operator: Operator,
    left: Known,
    next: Option<Known>,
) -> Result<(), AllocError>
    ensures { IfOk result (λ _. facts.new
        ≡ facts_of facts.old.row next (deferred operator left ∷ facts.old.deferred)) }
{
    facts.deferred.push_first(KnownDeferred { operator, left })?;
    facts.result = next;
    Ok(())
}

// The facts after an `OP(`.
fn set_aside<S: Scope>(
    scope: &S,
    facts: Carried,
    operator: Operator,
    first: &Option<Operand>,
) -> Result<Option<Carried>, AllocError>
    requires { IsFine (S.names scope.now) facts }
    ensures { IfOk result (λ after. moves_of_defer (S.names scope.now) (S.names scope.now).config
        (S.names scope.now).unit facts operator first.now ≡ option_map to_next after) }
{
    let (Some(left), Some(result)) = (facts.kept.result, first_operand(scope, &facts, first)) else {
        return Ok(None);
    };
    let mut facts = facts;
    put_aside(&mut *facts.kept, operator, left, result)?;
    Ok(Some(facts))
}

// The facts after a `)`.
fn evaluated(facts: Carried) -> Option<Carried>
    requires result { IsFineResult facts.result }
    requires deferred { AreFineDeferred facts.deferred }
    ensures { moves_of_evaluate facts facts.deferred ≡ option_map to_next result }
{
    let mut facts = facts;
    let deferred = facts.kept.deferred.take_first()?;
    let right = facts.kept.result?;
    facts.kept.result = Some(found_operated(deferred.operator, deferred.left, right)?);
    Some(facts)
}

// The result after an instruction that changes nothing else.
fn result_after<S: Scope>(scope: &S, facts: &Facts, instruction: &Instruction) -> Option<Known>
    requires fine { IsFine (S.names scope.now) facts.now }
    requires gives { GivesResult instruction.now }
    ensures { moves_of (S.names scope.now) (S.names scope.now).config (S.names scope.now).unit
        facts.now instruction.now ≡ giving facts.now result }
{
    match instruction {
        Instruction::Load { negated, operand } => {
            loaded(scope, &facts.row, *negated, &operand.reference)
        }
        Instruction::Not => flag_there(facts.result),
        Instruction::Operate { operator, operand } => operated(
            scope,
            &facts.row,
            facts.result,
            *operator,
            &operand.reference,
        ),
        Instruction::Invoke { function, operands } => {
            invoked(scope, facts, function.name.as_str(), operands.as_slice())
        }
        _ => unreachable!(),
    }
}

// The facts after an instruction that changes the result alone.
fn with_result<S: Scope>(scope: &S, facts: Carried, instruction: &Instruction) -> Option<Carried>
    requires fine { IsFine (S.names scope.now) facts }
    requires gives { GivesResult instruction.now }
    ensures { moves_of (S.names scope.now) (S.names scope.now).config (S.names scope.now).unit
        facts instruction.now ≡ option_map to_next result }
{
    let result = result_after(scope, &*facts.kept, instruction)?;
    let mut facts = facts;
    facts.kept.result = Some(result);
    Some(facts)
}

// The facts after a call of a block.
fn call<S: Scope>(
    alloc: Global,
    scope: &S,
    facts: Carried,
    condition: Condition,
    instance: &str,
    arguments: &[Argument],
) -> Result<Option<Carried>, AllocError>
    requires { IsFine (S.names scope.now) facts }
    ensures { IfOk result (λ after.
        moves_of_calling (S.names scope.now) facts condition instance.now arguments.now
        ≡ option_map to_next after) }
{
    if has_condition(condition, facts.kept.result) {
        called(alloc, scope, facts, condition, instance, arguments)
    } else {
        Ok(None)
    }
}

// The facts after an instruction that goes on to the next place alone.
fn after<S: Scope>(
    alloc: Global,
    scope: &S,
    facts: Carried,
    instruction: &Instruction,
) -> Result<Option<Carried>, AllocError>
    requires fine { IsFine (S.names scope.now) facts }
    requires next { GoesOnAlone instruction.now }
    ensures { IfOk result (λ after. moves_of (S.names scope.now) (S.names scope.now).config
        (S.names scope.now).unit facts instruction.now ≡ option_map to_next after) }
{
    match instruction {
        Instruction::Store { store, target } => {
            Ok(stored(scope, facts, *store, &target.reference))
        }
        Instruction::Defer { operator, first } => set_aside(scope, facts, *operator, first),
        Instruction::Evaluate => Ok(evaluated(facts)),
        Instruction::Call {
            condition,
            instance,
            arguments,
        } => call(
            alloc,
            scope,
            facts,
            *condition,
            instance.name.as_str(),
            arguments.as_slice(),
        ),
        other => Ok(with_result(scope, facts, other)),
    }
}

// What goes on to the next place alone.
fn onward(after: Option<Carried>) -> Option<Handed<Carried>>
    ensures { option_map moved result ≡ option_map to_next after }
{
    match after {
        Some(facts) => Some(Handed {
            next: Some(facts),
            jump: None,
        }),
        None => None,
    }
}

// What a return hands on.
fn returned(facts: Carried, condition: Condition) -> Option<Handed<Carried>>
    ensures { option_map moved result ≡ provided (has_condition condition facts.result)
        (Some (record { next = passing condition facts; jump = None })) }
{
    if !has_condition(condition, facts.kept.result) {
        return None;
    }
    let next = match condition {
        Condition::Always => None,
        _ => Some(facts),
    };
    Some(Handed { next, jump: None })
}

/// A copy of the facts, on memory of its own.
pub fn copy_of(alloc: Global, facts: &Facts) -> Result<Carried, AllocError>
    ensures { IfOk result (λ f. f ≡ facts.now) }
{
    let copy = Facts {
        row: facts.row.try_copy(alloc)?,
        result: facts.result,
        deferred: facts.deferred.try_copy(alloc)?,
    };
    Carried::of(alloc, copy)
}

// What a jump to this place hands on.
fn jumping_to(
    alloc: Global,
    facts: Carried,
    condition: Condition,
    to: usize,
) -> Result<Handed<Carried>, AllocError>
    ensures { IfOk result (λ h. Some (moved h) ≡ jumping_to condition facts (Some to)) }
{
    let mut facts = facts;
    if let Condition::Always = condition {
        facts.kept.result = None;
        return Ok(Handed {
            next: None,
            jump: Some((to, facts)),
        });
    }
    let there = copy_of(alloc, &*facts.kept)?;
    Ok(Handed {
        next: Some(facts),
        jump: Some((to, there)),
    })
}

// The place to which a jump may go.
fn target_of<S: Scope>(
    scope: &S,
    facts: &Carried,
    condition: Condition,
    label: &str,
) -> Option<usize>
    ensures { result ≡ provided (is_bare facts.now.deferred)
        (provided (has_condition condition facts.now.result)
        (label_place (S.names scope.now).unit.body label.now)) }
{
    if facts.kept.deferred.as_slice().is_empty() && has_condition(condition, facts.kept.result) {
        scope.label(label)
    } else {
        None
    }
}

// What a jump hands on.
fn jumped<S: Scope>(
    alloc: Global,
    scope: &S,
    facts: Carried,
    condition: Condition,
    label: &str,
) -> Result<Option<Handed<Carried>>, AllocError>
    ensures { IfOk result (λ h. option_map moved h
        ≡ provided (is_bare facts.deferred)
        (provided (has_condition condition facts.result)
        (jumping_to condition facts (label_place (S.names scope.now).unit.body label.now)))) }
{
    match target_of(scope, &facts, condition, label) {
        Some(to) => Ok(Some(jumping_to(alloc, facts, condition, to)?)),
        None => Ok(None),
    }
}

/// What an instruction hands on that is no jump of a test, unless it is refused.
pub fn hand_on_untested<S: Scope>(
    alloc: Global,
    scope: &S,
    facts: Carried,
    instruction: &Instruction,
) -> Result<Option<Handed<Carried>>, AllocError>
    requires { IsFine (S.names scope.now) facts }
    ensures { IfOk result (λ h. moves_of (S.names scope.now) (S.names scope.now).config
        (S.names scope.now).unit facts instruction.now ≡ option_map moved h) }
{
    match instruction {
        Instruction::Jump { condition, label } => {
            jumped(alloc, scope, facts, *condition, label.name.as_str())
        }
        Instruction::Return { condition } => Ok(returned(facts, *condition)),
        other => Ok(onward(after(alloc, scope, facts, other)?)),
    }
}
