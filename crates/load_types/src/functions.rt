// Functions (IEC 61131-3:2003, 2.5.1).

ghost use Rattle.std.specs.Prelude.{◌≡◌, ◌++◌, List, Option, Some, None, flat_map, map, take};
ghost use Rattle.il_syntax.specs.declared.tree.Unit.{Unit as ProgramUnit};
ghost use Rattle.il_syntax.specs.declared.tree.Form.{Form};
ghost use Rattle.il_statics.specs.Names as names;
ghost use Rattle.il_statics.specs.Types.{function_takes, index_numbers, wanted_numbers, uniform_numbers, agreement_numbers, loaded_numbers, selected_input_type, pair_numbers, selected_numbers, standard_numbers, input_numbers, own_function_numbers, function_numbers, selected_type, standard_type, function_type};
ghost use Rattle.il_statics.specs.Lowest.{lowest};
ghost use Rattle.load_scope.specs.Units.{scalar_of};

use crate::fault::{LowestFault, TypeFault, lower, unless};
use crate::names::elementary;
use crate::operands::{
    any_difference, index_fault, loaded_fault, loaded_type, maybe_wanted_fault, wanted_fault,
};
use crate::scope::Scope;
use il_statics::elementary::{has_value, is_same_type, is_whole};
use il_statics::names::StandardFunction;
use il_syntax::tree::{Elementary, Literal, Operand, Reference, Scalar};

// The arguments after the first.
fn further_arguments(function: StandardFunction) -> usize
    ensures { result ≡ names.further_arguments function }
{
    match function {
        StandardFunction::Absolute => 0,
        StandardFunction::Minimum => 1,
        StandardFunction::Maximum => 1,
        StandardFunction::Limited => 2,
        StandardFunction::Selected => 2,
        StandardFunction::Converted(_, _) => 0,
    }
}

// Whether a standard function of one type takes it.
fn function_takes(function: StandardFunction, found: Elementary) -> bool
    ensures { result ≡ function_takes function found }
{
    match function {
        StandardFunction::Absolute => is_whole(found),
        StandardFunction::Minimum => !is_same_type(found, Elementary::Bool),
        StandardFunction::Maximum => !is_same_type(found, Elementary::Bool),
        StandardFunction::Limited => !is_same_type(found, Elementary::Bool),
        StandardFunction::Selected => true,
        StandardFunction::Converted(_, _) => true,
    }
}

// So many operands from the first on.
fn front(operands: &[Operand], count: usize) -> &[Operand]
    ensures { result.now ≡ take count operands.now }
{
    if count < operands.len() {
        &operands[..count]
    } else {
        operands
    }
}

/// What the indices of operands break.
pub fn indices_fault<S: Scope>(scope: &S, operands: &[Operand]) -> LowestFault
    ensures { result ≡ lowest (flat_map
        (λ o. index_numbers (S.config scope.now) (S.unit scope.now) o.reference) operands.now) }
{
    let mut fault = LowestFault::none();
    for operand in operands {
        fault = lower(fault, index_fault(scope, &operand.reference));
    }
    fault
}

// What operands break where a type is wanted.
fn all_wanted_fault<S: Scope>(scope: &S, operands: &[Operand], wanted: Elementary) -> LowestFault
    ensures { result ≡ lowest (flat_map
        (λ o. wanted_numbers (S.config scope.now) (S.unit scope.now) o.reference wanted)
        operands.now) }
{
    let mut fault = LowestFault::none();
    for operand in operands {
        fault = lower(fault, wanted_fault(scope, &operand.reference, wanted));
    }
    fault
}

// What a standard function of one type breaks.
fn uniform_fault<S: Scope>(
    scope: &S,
    function: StandardFunction,
    operands: &[Operand],
    before: Option<Elementary>,
) -> LowestFault
    ensures { result ≡ lowest (uniform_numbers (S.config scope.now) (S.unit scope.now) function
        operands.now before) }
{
    let Some(found) = before else {
        return LowestFault::none();
    };
    if function_takes(function, found) {
        all_wanted_fault(scope, front(operands, further_arguments(function)), found)
    } else {
        LowestFault::of(TypeFault::WrongKind)
    }
}

/// What two types break that are to be one, where both are there.
pub fn agreement_fault(wanted: Option<Elementary>, found: Option<Elementary>) -> LowestFault
    ensures { result ≡ lowest (agreement_numbers wanted found) }
{
    match wanted {
        Some(wanted) => any_difference(found, wanted),
        None => LowestFault::none(),
    }
}

// What an input of SEL is judged as.
fn selected_input_type<S: Scope>(scope: &S, reference: &Reference) -> Option<Elementary>
    ensures { result ≡ selected_input_type (S.config scope.now) (S.unit scope.now) reference.now }
{
    match reference {
        Reference::Literal(Literal::Bare(value)) => {
            if has_value(Elementary::Int, *value) {
                Some(Elementary::Int)
            } else {
                Some(Elementary::Dint)
            }
        }
        other => loaded_type(scope, other),
    }
}

// What two inputs of SEL break.
#[tactic(auto, using(il_statics::proofs::Lowest::lowest_append))]
fn pair_fault<S: Scope>(scope: &S, a: &Reference, b: &Reference) -> LowestFault
    ensures { result ≡ lowest (pair_numbers (S.config scope.now) (S.unit scope.now) a.now b.now) }
{
    let first = selected_input_type(scope, a);
    let second = selected_input_type(scope, b);
    lower(
        lower(loaded_fault(scope, a), loaded_fault(scope, b)),
        agreement_fault(first, second),
    )
}

// What the inputs of SEL break.
fn selected_fault<S: Scope>(scope: &S, operands: &[Operand]) -> LowestFault
    ensures { result ≡ lowest (selected_numbers (S.config scope.now) (S.unit scope.now)
        operands.now) }
{
    match operands {
        [] => LowestFault::none(),
        [a] => loaded_fault(scope, &a.reference),
        [a, b, ..] => pair_fault(scope, &a.reference, &b.reference),
    }
}

// What a standard function's arguments break but for their number and a missing result.
#[tactic(auto, using(il_statics::proofs::Lowest::lowest_append))]
fn standard_fault<S: Scope>(
    scope: &S,
    function: StandardFunction,
    operands: &[Operand],
    before: Option<Elementary>,
) -> LowestFault
    ensures { result ≡ lowest (standard_numbers (S.config scope.now) (S.unit scope.now) function
        operands.now before) }
{
    match function {
        StandardFunction::Selected => lower(
            any_difference(before, Elementary::Bool),
            selected_fault(scope, operands),
        ),
        StandardFunction::Converted(from, _) => any_difference(before, from),
        other => uniform_fault(scope, other, operands, before),
    }
}

// What the arguments of a standard function break.
#[tactic(auto, using(il_statics::proofs::Lowest::lowest_append))]
fn counted_fault<S: Scope>(
    scope: &S,
    function: StandardFunction,
    operands: &[Operand],
    before: Option<Elementary>,
) -> LowestFault
    ensures { (own : Option ProgramUnit) → result
        ≡ lowest (function_numbers (S.config scope.now) (S.unit scope.now) (Some function) own
        operands.now before) }
{
    lower(
        unless(
            operands.len() == further_arguments(function),
            TypeFault::Arguments,
        ),
        standard_fault(scope, function, operands, before),
    )
}

// What operands break where inputs of these scalar types are.
fn inputs_fault<S: Scope>(
    scope: &S,
    scalars: &[Option<Scalar>],
    operands: &[Operand],
) -> LowestFault
    ensures { (inputs : List (names.Spelling × Form)) → scalars.now
        ≡ map (λ i. scalar_of (Some i.1)) inputs → result
        ≡ lowest (input_numbers (S.config scope.now) (S.unit scope.now) inputs operands.now) }
{
    let mut fault = LowestFault::none();
    for at in 0..operands.len() {
        if at < scalars.len() {
            let wanted = elementary(scalars[at]);
            fault = lower(
                fault,
                maybe_wanted_fault(scope, &operands[at].reference, wanted),
            );
        }
    }
    fault
}

// What the arguments of an own function break, with the scalar types of its inputs.
#[tactic(auto, using(il_statics::proofs::Lowest::lowest_append))]
fn own_function_fault<S: Scope>(
    scope: &S,
    scalars: &[Option<Scalar>],
    operands: &[Operand],
    before: Option<Elementary>,
) -> LowestFault
    ensures { (inputs : List (names.Spelling × Form)) → scalars.now
        ≡ map (λ i. scalar_of (Some i.1)) inputs → result
        ≡ lowest (own_function_numbers (S.config scope.now) (S.unit scope.now) inputs operands.now
        before) }
{
    match scalars {
        [] => LowestFault::of(TypeFault::Arguments),
        [first, others @ ..] => lower(
            lower(
                agreement_fault(elementary(*first), before),
                unless(operands.len() == others.len(), TypeFault::Arguments),
            ),
            inputs_fault(scope, others, operands),
        ),
    }
}

// What the arguments of an own function break.
fn own_fault<S: Scope>(
    scope: &S,
    name: &str,
    operands: &[Operand],
    before: Option<Elementary>,
) -> LowestFault
    ensures { result ≡ lowest (function_numbers (S.config scope.now) (S.unit scope.now) None
        (names.function_named (S.config scope.now) name.now) operands.now before) }
{
    match scope.own_inputs(name) {
        Some(scalars) => own_function_fault(scope, scalars, operands, before),
        None => LowestFault::none(),
    }
}

/// What a function's arguments break but for a missing result.
pub fn function_fault<S: Scope>(
    scope: &S,
    name: &str,
    operands: &[Operand],
    before: Option<Elementary>,
) -> LowestFault
    ensures { result ≡ lowest (function_numbers (S.config scope.now) (S.unit scope.now)
        (names.standard_function name.now) (names.function_named (S.config scope.now) name.now)
        operands.now before) }
{
    match scope.standard_function(name) {
        Some(function) => counted_fault(scope, function, operands, before),
        None => own_fault(scope, name, operands, before),
    }
}

// The type of SEL's first input, which it leaves.
fn selected_type<S: Scope>(scope: &S, operands: &[Operand]) -> Option<Elementary>
    ensures { result ≡ selected_type (S.config scope.now) (S.unit scope.now) operands.now }
{
    match operands {
        [] => None,
        [a, ..] => loaded_type(scope, &a.reference),
    }
}

// The type that a standard function leaves.
fn standard_type<S: Scope>(
    scope: &S,
    function: StandardFunction,
    operands: &[Operand],
    before: Option<Elementary>,
) -> Option<Elementary>
    ensures { result ≡ standard_type (S.config scope.now) (S.unit scope.now) function operands.now
        before }
{
    match function {
        StandardFunction::Selected => selected_type(scope, operands),
        StandardFunction::Converted(_, to) => Some(to),
        _ => before,
    }
}

/// The type that a function leaves.
pub fn function_type<S: Scope>(
    scope: &S,
    name: &str,
    operands: &[Operand],
    before: Option<Elementary>,
) -> Option<Elementary>
    ensures { result ≡ function_type (S.config scope.now) (S.unit scope.now)
        (names.standard_function name.now) (names.function_named (S.config scope.now) name.now)
        operands.now before }
{
    match scope.standard_function(name) {
        Some(function) => standard_type(scope, function, operands, before),
        None => scope.own_type(name, operands, before),
    }
}
