// Calls of instances (IEC 61131-3:2003, 3.2.3).

ghost use Rattle.std.specs.Prelude.{◌≡◌, ◌||◌, Option, Some, [], option_map, is_some, IfOk, OnOk};
ghost use Rattle.il_syntax.specs.declared.tree.Form.{Form};
ghost use Rattle.il_statics.specs.Names.{BlockVariables, is_one_of};
ghost use Rattle.il_statics.specs.Types.{scalar_type, instance_block, argument_word, given_input_numbers, given_output_numbers, argument_numbers, arguments_numbers, call_numbers};
ghost use Rattle.il_statics.specs.Lowest.{lowest};
ghost use Rattle.base_maps.specs.NameMap as table;
ghost use Rattle.load_types.specs.Types.{words_onto};

use crate::fault::{LowestFault, TypeFault, lower, unless};
use crate::functions::agreement_fault;
use crate::operands::{index_fault, maybe_wanted_fault};
use crate::scope::Scope;
use base_maps::Table;
use il_syntax::tree::{Argument, Elementary, Reference};
use std::alloc::{AllocError, Global};

// The most arguments of which each is compared with all before it: for few, that is cheaper than a table of their words.
const FEW: usize = 16;

// The word that an argument gives.
fn argument_word(argument: &Argument) -> &str
    ensures { result.now ≡ argument_word argument.now }
{
    match argument {
        Argument::Input { word, .. } => word.name.as_str(),
        Argument::Output { word, .. } => word.name.as_str(),
    }
}

fn either(first: bool, second: bool) -> bool
    ensures { result ≡ (first || second) }
{
    first || second
}

// Whether one of these arguments gives a word.
fn is_given(arguments: &[Argument], word: &str) -> bool
    ensures { result ≡ is_one_of (words_onto [] arguments.now) word.now }
{
    let mut given = false;
    for argument in arguments {
        given = either(argument_word(argument) == word, given);
    }
    given
}

// What an operand breaks as the input of a word.
fn given_input_fault<S: Scope>(
    scope: &S,
    found: Option<Option<Elementary>>,
    reference: &Reference,
) -> LowestFault
    ensures { (form : Option Form) → found ≡ option_map scalar_type form → result
        ≡ lowest (given_input_numbers (S.config scope.now) (S.unit scope.now) form reference.now) }
{
    match found {
        Some(wanted) => maybe_wanted_fault(scope, reference, wanted),
        None => lower(
            LowestFault::of(TypeFault::Arguments),
            index_fault(scope, reference),
        ),
    }
}

// What a target breaks as that of the output of a word.
fn given_output_fault<S: Scope>(
    scope: &S,
    found: Option<Option<Elementary>>,
    target: &str,
) -> LowestFault
    ensures { (form : Option Form) → found ≡ option_map scalar_type form → result
        ≡ lowest (given_output_numbers (S.config scope.now) (S.unit scope.now) form target.now) }
{
    match found {
        Some(wanted) => agreement_fault(wanted, scope.name_type(target)),
        None => LowestFault::of(TypeFault::Arguments),
    }
}

// What one argument breaks.
#[tactic(auto, using(il_statics::proofs::Lowest::lowest_append))]
fn argument_fault<S: Scope>(scope: &S, instance: &str, argument: &Argument) -> LowestFault
    ensures { (block : BlockVariables)
        → instance_block (S.config scope.now) (S.unit scope.now) instance.now ≡ Some block
        → result ≡ lowest (argument_numbers (S.config scope.now) (S.unit scope.now) block
        argument.now) }
{
    match argument {
        Argument::Input { word, operand } => given_input_fault(
            scope,
            scope.input_type(instance, word.name.as_str()),
            &operand.reference,
        ),
        Argument::Output { word, target } => lower(
            scope.name_target(target.name.as_str()).written,
            given_output_fault(
                scope,
                scope.output_type(instance, word.name.as_str()),
                target.name.as_str(),
            ),
        ),
    }
}

// What a few arguments break.
fn few_fault<S: Scope>(scope: &S, instance: &str, arguments: &[Argument]) -> LowestFault
    ensures { (block : BlockVariables)
        → instance_block (S.config scope.now) (S.unit scope.now) instance.now ≡ Some block
        → result ≡ lowest (arguments_numbers (S.config scope.now) (S.unit scope.now) block []
        arguments.now) }
{
    let mut fault = LowestFault::none();
    for at in 0..arguments.len() {
        let argument = &arguments[at];
        let given = is_given(&arguments[..at], argument_word(argument));
        let here = lower(
            unless(!given, TypeFault::Arguments),
            argument_fault(scope, instance, argument),
        );
        fault = lower(fault, here);
    }
    fault
}

// Whether a word was seen; now it is.
fn see(alloc: Global, seen: &mut Table<()>, word: &str) -> Result<bool, AllocError>
    ensures again { IfOk result (λ again. again ≡ is_some (table.get seen.old word.now)) }
    ensures seen { OnOk result (seen.new ≡ table.insert seen.old word.now tt) }
{
    let again = seen.get(word).is_some();
    seen.put(alloc, word, ())?;
    Ok(again)
}

// What many arguments break: a table has the words of those before.
fn many_fault<S: Scope>(
    alloc: Global,
    scope: &S,
    instance: &str,
    arguments: &[Argument],
) -> Result<LowestFault, AllocError>
    ensures { (block : BlockVariables)
        → instance_block (S.config scope.now) (S.unit scope.now) instance.now ≡ Some block
        → IfOk result (λ f. f ≡ lowest
        (arguments_numbers (S.config scope.now) (S.unit scope.now) block [] arguments.now)) }
{
    let mut seen = Table::new(alloc);
    let mut fault = LowestFault::none();
    for at in 0..arguments.len() {
        let argument = &arguments[at];
        let given = see(alloc, &mut seen, argument_word(argument))?;
        let here = lower(
            unless(!given, TypeFault::Arguments),
            argument_fault(scope, instance, argument),
        );
        fault = lower(fault, here);
    }
    Ok(fault)
}

// What all arguments break.
fn arguments_fault<S: Scope>(
    alloc: Global,
    scope: &S,
    instance: &str,
    arguments: &[Argument],
) -> Result<LowestFault, AllocError>
    ensures { (block : BlockVariables)
        → instance_block (S.config scope.now) (S.unit scope.now) instance.now ≡ Some block
        → IfOk result (λ f. f ≡ lowest
        (arguments_numbers (S.config scope.now) (S.unit scope.now) block [] arguments.now)) }
{
    if arguments.len() <= FEW {
        return Ok(few_fault(scope, instance, arguments));
    }
    many_fault(alloc, scope, instance, arguments)
}

/// What the arguments of a CAL break.
pub fn block_fault<S: Scope>(
    alloc: Global,
    scope: &S,
    instance: &str,
    arguments: &[Argument],
) -> Result<LowestFault, AllocError>
    ensures { IfOk result (λ f. f ≡ lowest
        (call_numbers (S.config scope.now) (S.unit scope.now)
        (instance_block (S.config scope.now) (S.unit scope.now) instance.now) arguments.now)) }
{
    if scope.is_instance(instance) {
        arguments_fault(alloc, scope, instance, arguments)
    } else {
        Ok(LowestFault::none())
    }
}
