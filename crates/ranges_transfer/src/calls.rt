// Calls of functions and of blocks (IEC 61131-3:2003, 2.5.1, 3.2.3).

ghost use Rattle.std.specs.Prelude.{◌≡◌, ◌∷◌, [], List, Option, Some, map, length, option_map, option_and_then, IfOk};
ghost use Rattle.il_syntax.specs.declared.tree.Form.{Form};
ghost use Rattle.il_syntax.specs.declared.tree.Form.TheVariants.{Block as BlockForm};
ghost use Rattle.il_statics.specs.Names.{standard_function, function_named};
ghost use Rattle.base_maps.specs.NameMap.{Text};
ghost use Rattle.il_semantics.specs.Annotation.{known_argument_type};
ghost use Rattle.ranges_laws.specs.Facts.{row_at, IsRowOf, IsFine, IsFineKnown, IsFineResult};
ghost use Rattle.ranges_laws.specs.Found.{found_operand};
ghost use Rattle.ranges_laws.specs.Steps.{to_next, giving, applied_to, moves_of_invoke, fits_form, fits_input, fits_output, fit_inputs, fit_arguments, outputs_row, passed_row, called, has_condition, moves_of_call};
ghost use Rattle.ranges_transfer.specs.Standard.{argument_type_of};
ghost use Rattle.load_scope.specs.Units.{scalar_of};
ghost use Rattle.ranges_transfer.specs.Scopes.{denoted, named, form_in, all_fit, own_found, argument_fits};

use crate::functions::{applied_alone, applied_to_one, applied_to_two};
use crate::known::fits_range;
use crate::meant::{Meant, natural_of, operand_in};
use crate::operands::operand;
use crate::scope::Scope;
use il_semantics::known::Known;
use il_statics::names::StandardFunction;
use il_syntax::tree::{Elementary, Operand, Reference, Scalar};
use ranges_laws::facts::Facts;
use ranges_rows::Row;

// The type of a bare literal among a function's further arguments.
fn argument_type(function: StandardFunction, first: Known, meant: Meant) -> Elementary
    ensures { result ≡ argument_type_of function first meant }
{
    match (function, first) {
        (StandardFunction::Selected, _) => natural_of(meant),
        (_, Known::Ranged(elementary, _)) => elementary,
        (_, Known::Flag) => natural_of(meant),
    }
}

// What is known of one of a function's further arguments.
fn argument<S: Scope>(
    scope: &S,
    row: &Row,
    function: StandardFunction,
    first: Known,
    reference: &Reference,
) -> Option<Known>
    requires { IsRowOf (S.names scope.now) row.now }
    ensures fine { IsFineResult result }
    ensures is { result ≡ found_operand (row_at (S.names scope.now) row.now)
        (known_argument_type function first (denoted (S.names scope.now) reference.now))
        (denoted (S.names scope.now) reference.now) }
{
    let meant = scope.meant(reference);
    operand_in(row, argument_type(function, first, meant), meant)
}

// What a function of the current result and an operand leaves.
fn applied_with_one<S: Scope>(
    scope: &S,
    row: &Row,
    function: StandardFunction,
    a: &Operand,
    first: Known,
) -> Option<Known>
    requires row { IsRowOf (S.names scope.now) row.now }
    requires fine { IsFineKnown first }
    ensures { result ≡ applied_to (S.names scope.now) row.now (S.names scope.now).config
        (S.names scope.now).unit function (a.now ∷ []) first }
{
    let second = argument(scope, row, function, first, &a.reference)?;
    applied_to_one(function, first, second)
}

// What a function of the current result and two operands leaves.
fn applied_with_two<S: Scope>(
    scope: &S,
    row: &Row,
    function: StandardFunction,
    a: &Operand,
    b: &Operand,
    first: Known,
) -> Option<Known>
    requires row { IsRowOf (S.names scope.now) row.now }
    requires fine { IsFineKnown first }
    ensures { result ≡ applied_to (S.names scope.now) row.now (S.names scope.now).config
        (S.names scope.now).unit function (a.now ∷ b.now ∷ []) first }
{
    let second = argument(scope, row, function, first, &a.reference)?;
    let third = argument(scope, row, function, first, &b.reference)?;
    applied_to_two(function, first, second, third)
}

// What a standard function leaves.
fn applied<S: Scope>(
    scope: &S,
    row: &Row,
    function: StandardFunction,
    operands: &[Operand],
    first: Option<Known>,
) -> Option<Known>
    requires row { IsRowOf (S.names scope.now) row.now }
    requires fine { IsFineResult first }
    ensures { result ≡ option_and_then
        (applied_to (S.names scope.now) row.now (S.names scope.now).config
        (S.names scope.now).unit function operands.now) first }
{
    let first = first?;
    match operands {
        [] => applied_alone(function, first),
        [a] => applied_with_one(scope, row, function, a, first),
        [a, b] => applied_with_two(scope, row, function, a, b, first),
        _ => None,
    }
}

/// Whether an operand fits an input, if that is scalar.
pub fn fits_input<S: Scope>(
    scope: &S,
    row: &Row,
    input: Option<Scalar>,
    reference: &Reference,
) -> bool
    requires { IsRowOf (S.names scope.now) row.now }
    ensures { (form : Option Form) → input ≡ scalar_of form → result
        ≡ fits_input (S.names scope.now) row.now (denoted (S.names scope.now) reference.now) form }
{
    let Some(scalar) = input else {
        return false;
    };
    match operand(scope, row, scalar.elementary, reference) {
        Some(known) => fits_range(scalar, known),
        None => false,
    }
}

// Whether a value fits an input, if that is scalar.
fn fits_form(input: Option<Scalar>, known: Known) -> bool
    ensures { (form : Option Form) → input ≡ scalar_of form → result ≡ fits_form form known }
{
    match input {
        Some(scalar) => fits_range(scalar, known),
        None => false,
    }
}

// Whether all operands fit their inputs.
fn fit_inputs<S: Scope>(
    scope: &S,
    row: &Row,
    inputs: &[Option<Scalar>],
    operands: &[Operand],
) -> bool
    requires { IsRowOf (S.names scope.now) row.now }
    ensures { (forms : List (Text × Form)) → inputs.now ≡ map (λ i. scalar_of (Some i.1)) forms
        → result ≡ fit_inputs (S.names scope.now) row.now (S.names scope.now).config
        (S.names scope.now).unit forms operands.now }
{
    if inputs.len() != operands.len() {
        return false;
    }
    for at in 0..operands.len() {
        if !fits_input(scope, row, inputs[at], &operands[at].reference) {
            return false;
        }
    }
    true
}

// Whether the arguments of an own function fit its inputs.
fn fit_all<S: Scope>(
    scope: &S,
    row: &Row,
    inputs: &[Option<Scalar>],
    operands: &[Operand],
    first: Known,
) -> bool
    requires { IsRowOf (S.names scope.now) row.now }
    ensures { (forms : List (Text × Form)) → inputs.now ≡ map (λ i. scalar_of (Some i.1)) forms
        → result ≡ all_fit (S.names scope.now) row.now forms operands.now first }
{
    match inputs {
        [] => false,
        [input, others @ ..] => {
            fits_form(*input, first) && fit_inputs(scope, row, others, operands)
        }
    }
}

// What an own function leaves.
fn own<S: Scope>(
    scope: &S,
    row: &Row,
    name: &str,
    operands: &[Operand],
    first: Option<Known>,
) -> Option<Known>
    requires { IsRowOf (S.names scope.now) row.now }
    ensures { result ≡ own_found (S.names scope.now) row.now
        (function_named (S.names scope.now).config name.now) operands.now first }
{
    let inputs = scope.own_inputs(name)?;
    if fit_all(scope, row, inputs, operands, first?) {
        scope.own_result(name)
    } else {
        None
    }
}

/// What a function leaves, standard or own.
pub fn invoked<S: Scope>(
    scope: &S,
    facts: &Facts,
    name: &str,
    operands: &[Operand],
) -> Option<Known>
    requires { IsFine (S.names scope.now) facts.now }
    ensures { moves_of_invoke (S.names scope.now) (S.names scope.now).config
        (S.names scope.now).unit facts.now (standard_function name.now)
        (function_named (S.names scope.now).config name.now) operands.now
        ≡ giving facts.now result }
{
    match scope.standard_function(name) {
        Some(function) => applied(scope, &facts.row, function, operands, facts.result),
        None => own(scope, &facts.row, name, operands, facts.result),
    }
}
