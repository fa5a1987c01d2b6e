// The type that the current result must have at an instruction (IEC 61131-3:2003, 3.2.2, 3.2.3).

ghost use Rattle.std.specs.Prelude.{◌≡◌, List, None, Some, map, OnOk};
ghost use Rattle.base_texts.specs.Puts.{Puts};
ghost use Rattle.il_syntax.specs.declared.tree.Config.{Config};
ghost use Rattle.il_syntax.specs.declared.tree.Elementary.{Elementary as TypeOf};
ghost use Rattle.il_syntax.specs.declared.tree.Form.{Form};
ghost use Rattle.il_syntax.specs.declared.tree.Instruction.{Instruction as Instructions};
ghost use Rattle.il_syntax.specs.declared.tree.Unit.{Unit as ProgramUnit};
ghost use Rattle.il_statics.specs.Names.{Spelling, standard_function, function_named};
ghost use Rattle.il_statics.specs.Types.{reference_type};
ghost use Rattle.load_scope.specs.Units.{scalar_of};
ghost use Rattle.load_types.specs.Types.{elementary_of};
ghost use Rattle.reasons_types.specs.TypeReasons.{tested_type, stored_type, operated_type, standard_type, first_type, function_type, wanted_type, IsWanted, wanted_line};

use crate::types_operands::type_word;
use il_statics::names::StandardFunction;
use il_syntax::tree::{Condition, Elementary, Instruction, Operator, Reference, Scalar, Store};
use load_scope::UnitScope;
use load_scope::functions::standard_function;
use load_types::scope::Scope;
use reasons_names::writing::put_three;
use std::alloc::AllocError;

/// A law: with a current result of another type than the one that must be there, an instruction breaks a rule.
pub fn result_must_be()
    ensures { (c : Config) (unit : ProgramUnit) (instruction : Instructions) (wanted : TypeOf)
        → wanted_type c unit instruction ≡ Some wanted → IsWanted c unit instruction wanted }
{}

// The one type that a condition takes.
fn tested_type(condition: Condition) -> Option<Elementary>
    ensures { result ≡ tested_type condition }
{
    match condition {
        Condition::Always => None,
        _ => Some(Elementary::Bool),
    }
}

// The one type that a store takes.
fn stored_type(store: Store, target: Option<Elementary>) -> Option<Elementary>
    ensures { result ≡ stored_type store target }
{
    match store {
        Store::Plain => target,
        _ => Some(Elementary::Bool),
    }
}

// The one type that an operator takes.
fn operated_type(operator: Operator) -> Option<Elementary>
    ensures { result ≡ operated_type operator }
{
    match operator {
        Operator::Logic { .. } => Some(Elementary::Bool),
        _ => None,
    }
}

// The one type that a standard function takes.
fn standard_type(function: StandardFunction) -> Option<Elementary>
    ensures { result ≡ standard_type function }
{
    match function {
        StandardFunction::Selected => Some(Elementary::Bool),
        StandardFunction::Converted(from, _) => Some(from),
        _ => None,
    }
}

// The type of a scalar, if there is one.
fn elementary(scalar: Option<Scalar>) -> Option<Elementary>
    ensures { result ≡ elementary_of scalar }
{
    match scalar {
        Some(scalar) => Some(scalar.elementary),
        None => None,
    }
}

// The type of the first of some inputs.
fn first_type(scalars: &[Option<Scalar>]) -> Option<Elementary>
    ensures { (inputs : List (Spelling × Form)) → scalars.now
        ≡ map (λ i. scalar_of (Some i.1)) inputs → result ≡ first_type inputs }
{
    match scalars {
        [] => None,
        [first, ..] => elementary(*first),
    }
}

// The type of an own function's first input.
fn own_type(scope: &UnitScope<'_>, name: &str) -> Option<Elementary>
    ensures { result ≡ function_type None (function_named scope.now.config name.now) }
{
    match scope.own_inputs(name) {
        Some(scalars) => first_type(scalars),
        None => None,
    }
}

// The one type that a function takes.
fn function_type(scope: &UnitScope<'_>, name: &str) -> Option<Elementary>
    ensures { result ≡ function_type (standard_function name.now)
        (function_named scope.now.config name.now) }
{
    match standard_function(name) {
        Some(function) => standard_type(function),
        None => own_type(scope, name),
    }
}

// The type of what an operand names.
#[tactic(auto, unfolding(il_statics::specs::Types::reference_type))]
fn reference_type<S: Scope>(scope: &S, reference: &Reference) -> Option<Elementary>
    ensures { result ≡ reference_type (S.config scope.now) (S.unit scope.now) reference.now }
{
    match reference {
        Reference::Literal(_) => None,
        Reference::Variable(name) => scope.name_type(name.as_str()),
        Reference::Element(name, _) => scope.element_type(name.as_str()),
        Reference::Member(name, word) => scope.member_type(name.as_str(), word.as_str()),
    }
}

// The one type that an instruction takes.
fn wanted_type(scope: &UnitScope<'_>, instruction: &Instruction) -> Option<Elementary>
    ensures { result ≡ wanted_type scope.now.config scope.now.unit instruction.now }
{
    match instruction {
        Instruction::Store { store, target } => {
            stored_type(*store, reference_type(scope, &target.reference))
        }
        Instruction::Not => Some(Elementary::Bool),
        Instruction::Operate { operator, .. } => operated_type(*operator),
        Instruction::Jump { condition, .. } => tested_type(*condition),
        Instruction::Return { condition } => tested_type(*condition),
        Instruction::Call { condition, .. } => tested_type(*condition),
        Instruction::Invoke { function, .. } => function_type(scope, function.name.as_str()),
        _ => None,
    }
}

// `the result must be INT`, where one type is wanted.
fn put_must(text: &mut String, wanted: Option<Elementary>) -> Result<(), AllocError>
    ensures { OnOk result (Puts text.old text.new (wanted_line wanted)) }
{
    match wanted {
        Some(wanted) => put_three(text, "the result must be ", type_word(wanted), "\n"),
        None => Ok(()),
    }
}

/// The type that the current result must have at an instruction, where one type is wanted.
pub fn put_wanted(
    text: &mut String,
    scope: &UnitScope<'_>,
    instruction: &Instruction,
) -> Result<(), AllocError>
    ensures { OnOk result (Puts text.old text.new
        (wanted_line (wanted_type scope.now.config scope.now.unit instruction.now))) }
{
    put_must(text, wanted_type(scope, instruction))
}
