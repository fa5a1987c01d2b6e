// What instructions break, and the types that they leave (IEC 61131-3:2003, 3.2.2, 3.2.3).

ghost use Rattle.std.specs.Prelude.{◌≡◌, ◌++◌, flat_map, IfOk};
ghost use Rattle.il_statics.specs.Names.{standard_function, function_named};
ghost use Rattle.il_statics.specs.Types.{presence_numbers, arithmetic_takes, comparison_takes, takes, taken_numbers, taken_type, operand_type, left_type, maybe_wanted_numbers, short_form_numbers, load_numbers, inner_numbers, evaluated_numbers, condition_numbers, call_numbers, instance_block, index_numbers, function_numbers, invoke_numbers, typing_numbers, short_form_type, kept_type, stored_type, evaluated_type, load_type, type_after};
ghost use Rattle.il_statics.specs.Lowest.{lowest};

use crate::calls::block_fault;
use crate::fault::{LowestFault, TypeFault, lower, unless};
use crate::functions::{function_fault, function_type, indices_fault};
use crate::operands::{difference, loaded_fault, loaded_type, maybe_wanted_fault, wanted_fault};
use crate::scope::Scope;
use crate::stores::{result_fault, store_fault};
use il_statics::elementary::{is_same_type, is_whole};
use il_syntax::tree::{
    Argument, Arithmetic, Comparison, Condition, Elementary, Instruction, Operand, Operator,
    Reference, Store,
};
use std::alloc::{AllocError, Global};

// 32 without a current result.
fn presence_fault(before: Option<Elementary>) -> LowestFault
    ensures { result ≡ lowest (presence_numbers before) }
{
    match before {
        Some(_) => LowestFault::none(),
        None => LowestFault::of(TypeFault::NoResult),
    }
}

// Whether an arithmetic operator takes a type.
fn arithmetic_takes(arithmetic: Arithmetic, found: Elementary) -> bool
    ensures { result ≡ arithmetic_takes arithmetic found }
{
    match arithmetic {
        Arithmetic::Add => !is_same_type(found, Elementary::Bool),
        Arithmetic::Sub => !is_same_type(found, Elementary::Bool),
        _ => is_whole(found),
    }
}

// Whether a comparison takes a type.
fn comparison_takes(comparison: Comparison, found: Elementary) -> bool
    ensures { result ≡ comparison_takes comparison found }
{
    match comparison {
        Comparison::Equal => true,
        Comparison::NotEqual => true,
        _ => !is_same_type(found, Elementary::Bool),
    }
}

// Whether an operator takes a current result of a type.
fn takes(operator: Operator, found: Elementary) -> bool
    ensures { result ≡ takes operator found }
{
    match operator {
        Operator::Logic { .. } => is_same_type(found, Elementary::Bool),
        Operator::Arithmetic(arithmetic) => arithmetic_takes(arithmetic, found),
        Operator::Comparison(comparison) => comparison_takes(comparison, found),
    }
}

// What an operator breaks with the current result.
fn taken_fault(operator: Operator, before: Option<Elementary>) -> LowestFault
    ensures { result ≡ lowest (taken_numbers operator before) }
{
    match before {
        Some(found) => unless(takes(operator, found), TypeFault::WrongKind),
        None => LowestFault::of(TypeFault::NoResult),
    }
}

// The type where an operator takes it.
fn taken_type(operator: Operator, before: Option<Elementary>) -> Option<Elementary>
    ensures { result ≡ taken_type operator before }
{
    match before {
        Some(found) => {
            if takes(operator, found) {
                Some(found)
            } else {
                None
            }
        }
        None => None,
    }
}

// The type that an operator wants of its operand.
fn operand_type(operator: Operator, before: Option<Elementary>) -> Option<Elementary>
    ensures { result ≡ operand_type operator before }
{
    match operator {
        Operator::Logic { .. } => Some(Elementary::Bool),
        other => taken_type(other, before),
    }
}

// The type that an operator leaves.
fn left_type(operator: Operator, before: Option<Elementary>) -> Option<Elementary>
    ensures { result ≡ left_type operator before }
{
    match operator {
        Operator::Arithmetic(_) => before,
        _ => Some(Elementary::Bool),
    }
}

// LD takes any operand, LDN a BOOL.
fn load_fault<S: Scope>(scope: &S, negated: bool, reference: &Reference) -> LowestFault
    ensures { result ≡ lowest (load_numbers (S.config scope.now) (S.unit scope.now) negated
        reference.now) }
{
    if negated {
        wanted_fault(scope, reference, Elementary::Bool)
    } else {
        loaded_fault(scope, reference)
    }
}

// What LD and LDN leave.
fn load_type<S: Scope>(scope: &S, negated: bool, reference: &Reference) -> Option<Elementary>
    ensures { result ≡ load_type (S.config scope.now) (S.unit scope.now) negated reference.now }
{
    if negated {
        Some(Elementary::Bool)
    } else {
        loaded_type(scope, reference)
    }
}

// What an operator with its operand breaks.
#[tactic(auto, using(il_statics::proofs::Lowest::lowest_append))]
fn operate_fault<S: Scope>(
    scope: &S,
    operator: Operator,
    reference: &Reference,
    before: Option<Elementary>,
) -> LowestFault
    ensures { result ≡ lowest (taken_numbers operator before
        ++ maybe_wanted_numbers (S.config scope.now) (S.unit scope.now) reference.now
        (operand_type operator before)) }
{
    lower(
        taken_fault(operator, before),
        maybe_wanted_fault(scope, reference, operand_type(operator, before)),
    )
}

// What the operand of a short form breaks.
fn short_form_fault<S: Scope>(scope: &S, first: &Option<Operand>) -> LowestFault
    ensures { result ≡ lowest (short_form_numbers (S.config scope.now) (S.unit scope.now)
        first.now) }
{
    match first {
        Some(operand) => loaded_fault(scope, &operand.reference),
        None => LowestFault::none(),
    }
}

// What a short form loads.
fn short_form_type<S: Scope>(scope: &S, first: &Option<Operand>) -> Option<Elementary>
    ensures { result ≡ short_form_type (S.config scope.now) (S.unit scope.now) first.now }
{
    match first {
        Some(operand) => loaded_type(scope, &operand.reference),
        None => None,
    }
}

// What an `OP(` breaks.
#[tactic(auto, using(il_statics::proofs::Lowest::lowest_append))]
fn defer_fault<S: Scope>(
    scope: &S,
    first: &Option<Operand>,
    before: Option<Elementary>,
) -> LowestFault
    ensures { result ≡ lowest (presence_numbers before
        ++ short_form_numbers (S.config scope.now) (S.unit scope.now) first.now) }
{
    lower(presence_fault(before), short_form_fault(scope, first))
}

// What the inner result breaks as an operand.
fn inner_fault(wanted: Option<Elementary>, inner: Option<Elementary>) -> LowestFault
    ensures { result ≡ lowest (inner_numbers wanted inner) }
{
    match (wanted, inner) {
        (_, None) => LowestFault::of(TypeFault::NoResult),
        (None, Some(_)) => LowestFault::none(),
        (Some(wanted), Some(inner)) => difference(inner, wanted),
    }
}

// What a `)` breaks.
#[tactic(auto, using(il_statics::proofs::Lowest::lowest_append))]
fn evaluated_fault(
    deferred: Option<(Operator, Option<Elementary>)>,
    inner: Option<Elementary>,
) -> LowestFault
    ensures { result ≡ lowest (evaluated_numbers deferred inner) }
{
    match deferred {
        Some((operator, before)) => lower(
            taken_fault(operator, before),
            inner_fault(operand_type(operator, before), inner),
        ),
        None => LowestFault::of(TypeFault::NoResult),
    }
}

// What a `)` leaves.
fn evaluated_type(deferred: Option<Operator>, inner: Option<Elementary>) -> Option<Elementary>
    ensures { result ≡ evaluated_type deferred inner }
{
    match deferred {
        Some(operator) => left_type(operator, inner),
        None => None,
    }
}

// A condition takes a BOOL.
fn condition_fault(condition: Condition, before: Option<Elementary>) -> LowestFault
    ensures { result ≡ lowest (condition_numbers condition before) }
{
    match condition {
        Condition::Always => LowestFault::none(),
        _ => result_fault(before, Elementary::Bool),
    }
}

// What a jump or return leaves.
fn kept_type(condition: Condition) -> Option<Elementary>
    ensures { result ≡ kept_type condition }
{
    match condition {
        Condition::Always => None,
        _ => Some(Elementary::Bool),
    }
}

// What a store leaves.
fn stored_type(store: Store, before: Option<Elementary>) -> Option<Elementary>
    ensures { result ≡ stored_type store before }
{
    match store {
        Store::Plain => before,
        _ => Some(Elementary::Bool),
    }
}

// What a CAL breaks.
#[tactic(auto, using(il_statics::proofs::Lowest::lowest_append))]
fn call_fault<S: Scope>(
    alloc: Global,
    scope: &S,
    condition: Condition,
    instance: &str,
    arguments: &[Argument],
    before: Option<Elementary>,
) -> Result<LowestFault, AllocError>
    ensures { IfOk result (λ f. f ≡ lowest
        (condition_numbers condition before
        ++ call_numbers (S.config scope.now) (S.unit scope.now)
        (instance_block (S.config scope.now) (S.unit scope.now) instance.now) arguments.now)) }
{
    let given = block_fault(alloc, scope, instance, arguments)?;
    Ok(lower(condition_fault(condition, before), given))
}

// What a function breaks.
#[tactic(auto, using(il_statics::proofs::Lowest::lowest_append))]
fn invoke_fault<S: Scope>(
    scope: &S,
    name: &str,
    operands: &[Operand],
    before: Option<Elementary>,
) -> LowestFault
    ensures { result
        ≡ lowest (invoke_numbers (S.config scope.now) (S.unit scope.now) name.now operands.now before) }
{
    lower(
        lower(presence_fault(before), indices_fault(scope, operands)),
        function_fault(scope, name, operands, before),
    )
}

/// The lowest number that an instruction breaks of 30 to 33 and 37.
#[tactic(auto, unfolding(il_statics::specs::Types::typing_numbers))]
pub fn typing_fault<S: Scope>(
    alloc: Global,
    scope: &S,
    instruction: &Instruction,
    before: Option<Elementary>,
    deferred: Option<(Operator, Option<Elementary>)>,
) -> Result<LowestFault, AllocError>
    ensures { IfOk result (λ f. f ≡ lowest
        (typing_numbers (S.config scope.now) (S.unit scope.now) instruction.now before deferred)) }
{
    match instruction {
        Instruction::Load { negated, operand } => {
            Ok(load_fault(scope, *negated, &operand.reference))
        }
        Instruction::Store { store, target } => {
            Ok(store_fault(scope, *store, &target.reference, before))
        }
        Instruction::Not => Ok(result_fault(before, Elementary::Bool)),
        Instruction::Operate { operator, operand } => {
            Ok(operate_fault(scope, *operator, &operand.reference, before))
        }
        Instruction::Defer { first, .. } => Ok(defer_fault(scope, first, before)),
        Instruction::Evaluate => Ok(evaluated_fault(deferred, before)),
        Instruction::Jump { condition, .. } => Ok(condition_fault(*condition, before)),
        Instruction::Return { condition } => Ok(condition_fault(*condition, before)),
        Instruction::Call {
            condition,
            instance,
            arguments,
        } => call_fault(
            alloc,
            scope,
            *condition,
            instance.name.as_str(),
            arguments.as_slice(),
            before,
        ),
        Instruction::Invoke { function, operands } => Ok(invoke_fault(
            scope,
            function.name.as_str(),
            operands.as_slice(),
            before,
        )),
    }
}

/// The type of the current result after an instruction; at a `)` with the operator that waits for it.
#[tactic(auto, unfolding(il_statics::specs::Types::type_after))]
pub fn type_after<S: Scope>(
    scope: &S,
    deferred: Option<Operator>,
    instruction: &Instruction,
    before: Option<Elementary>,
) -> Option<Elementary>
    ensures { result ≡ type_after (S.config scope.now) (S.unit scope.now) deferred instruction.now
        before }
{
    match instruction {
        Instruction::Load { negated, operand } => load_type(scope, *negated, &operand.reference),
        Instruction::Store { store, .. } => stored_type(*store, before),
        Instruction::Not => Some(Elementary::Bool),
        Instruction::Operate { operator, .. } => left_type(*operator, before),
        Instruction::Defer { first, .. } => short_form_type(scope, first),
        Instruction::Evaluate => evaluated_type(deferred, before),
        Instruction::Jump { condition, .. } => kept_type(*condition),
        Instruction::Return { condition } => kept_type(*condition),
        Instruction::Call { .. } => None,
        Instruction::Invoke { function, operands } => {
            function_type(scope, function.name.as_str(), operands.as_slice(), before)
        }
    }
}
