// Calls of functions (IEC 61131-3:2003, 2.5.1).

ghost use Rattle.std.specs.Prelude.{◌≡◌, map, drop, IfOk};
ghost use Rattle.load_code.specs.Resolving.{resolve, by_resolved, literal_beside, argument_at, arguments_at, unit_inputs, invoke_of, invoking_code};

use crate::here::Here;
use crate::operands::{Resolved, natural, operand_for, resolve, slot_known, typed, untyped};
use base_lists::Items;
use il_statics::names::StandardFunction;
use il_syntax::tree::{Literal, Named, Operand as Written};
use load_scope::functions::standard_function;
use load_slots::flat::{Assignment, Flat, Operand};
use load_slots::variables::Variable;
use std::alloc::{AllocError, Global};

// A literal among the further arguments of a standard function: those of SEL have types of their own.
fn literal_beside(function: StandardFunction, literal: Literal) -> Operand
    ensures { result ≡ literal_beside function literal }
{
    match function {
        StandardFunction::Selected => typed(natural(literal), literal),
        _ => untyped(literal),
    }
}

// A further argument of a standard function.
fn operand_beside(function: StandardFunction, resolved: Resolved) -> Operand
    ensures { result ≡ by_resolved (literal_beside function) resolved }
{
    match resolved {
        Resolved::Literal(literal) => literal_beside(function, literal),
        Resolved::Place(operand) => operand,
    }
}

// The further arguments of a standard function.
fn operands(
    alloc: Global,
    here: &Here,
    function: StandardFunction,
    from: &[Written],
) -> Result<Items<Operand>, AllocError>
    ensures { IfOk result (λ os. os ≡ map
        (λ o. by_resolved (literal_beside function)
        (resolve here.now.scope.config here.now.scope.unit o.reference)) from.now) }
{
    let mut operands = Items::new(alloc);
    for written in from {
        operands.push(operand_beside(function, resolve(here, &written.reference)))?;
    }
    Ok(operands)
}

// An input of an own function, and what it is given.
fn argument(here: &Here, unit: usize, input: &Variable, from: &Written) -> Assignment
    ensures { result ≡ argument_at here.now.scope.config here.now.scope.unit unit input.now
        from.now }
{
    let known = here.function_variable(unit, input);
    Assignment {
        to: slot_known(0, known),
        from: operand_for(known, resolve(here, &from.reference)),
    }
}

// Inputs of an own function, with what they are given.
fn arguments(
    alloc: Global,
    here: &Here,
    unit: usize,
    inputs: &[Variable],
    from: &[Written],
) -> Result<Items<Assignment>, AllocError>
    ensures { IfOk result (λ xs. xs ≡ arguments_at here.now.scope.config here.now.scope.unit unit
        inputs.now from.now) }
{
    let mut all = Items::new(alloc);
    let count = inputs.len().min(from.len());
    for at in 0..count {
        all.push(argument(here, unit, &inputs[at], &from[at]))?;
    }
    Ok(all)
}

// All inputs but the first.
fn further(inputs: &[Variable]) -> &[Variable]
    ensures { result.now ≡ drop 1 inputs.now }
{
    match inputs {
        [_, rest @ ..] => rest,
        [] => inputs,
    }
}

// The call of an own function.
fn own_call(
    alloc: Global,
    here: &Here,
    unit: usize,
    from: &[Written],
) -> Result<Items<Assignment>, AllocError>
    ensures { IfOk result (λ xs. xs ≡ arguments_at here.now.scope.config here.now.scope.unit unit
        (drop 1 (unit_inputs here.now.scope.config unit)) from.now) }
{
    let inputs = here.inputs_of(alloc, unit)?;
    arguments(alloc, here, unit, further(inputs.as_slice()), from)
}

// The call of a function that is found.
fn invoke_of(
    alloc: Global,
    here: &Here,
    from: &[Written],
    standard: Option<StandardFunction>,
    own: Option<usize>,
) -> Result<Flat, AllocError>
    ensures { IfOk result (λ f. f ≡ invoke_of here.now.scope.config here.now.scope.unit from.now
        standard own) }
{
    match (standard, own) {
        (Some(function), _) => Ok(Flat::Apply {
            function,
            operands: operands(alloc, here, function, from)?,
        }),
        (None, Some(unit)) => Ok(Flat::Invoke {
            unit,
            inputs: own_call(alloc, here, unit, from)?,
        }),
        (None, None) => Ok(Flat::Not),
    }
}

/// A call of a function.
pub fn invoke(
    alloc: Global,
    here: &Here,
    function: &Named,
    from: &[Written],
) -> Result<Flat, AllocError>
    ensures { IfOk result (λ f. f ≡ invoking_code here.now.scope.config here.now.scope.unit
        function.now.name from.now) }
{
    let name = function.name.as_str();
    invoke_of(
        alloc,
        here,
        from,
        standard_function(name),
        here.scope.names().function(name),
    )
}
