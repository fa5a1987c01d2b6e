// The operands of instructions, each with its type.

ghost use Rattle.std.specs.Prelude.{◌≡◌, OnOk};
ghost use Rattle.base_texts.specs.Puts.{Puts};
ghost use Rattle.reasons_types.specs.TypeWords.{type_word, truth_word, is_text, fit_text, fits_text, fits_all, fits_one, fitting_text, bare_line, literal_line};
ghost use Rattle.reasons_types.specs.TypeReasons.{name_line, index_line, element_line, member_line, reference_lines, operands_lines, argument_lines, arguments_lines, operand_lines};

use crate::range_words::put_index;
use il_statics::elementary::has_value;
use il_syntax::tree::{Argument, Elementary, Index, Instruction, Literal, Operand, Reference};
use load_types::scope::Scope;
use reasons_names::writing::{put_four, put_three, put_two};
use std::alloc::AllocError;

/// The word of a type.
pub fn type_word(elementary: Elementary) -> &'static str
    ensures { result.now ≡ type_word elementary }
{
    match elementary {
        Elementary::Bool => "BOOL",
        Elementary::Sint => "SINT",
        Elementary::Int => "INT",
        Elementary::Dint => "DINT",
        Elementary::Usint => "USINT",
        Elementary::Uint => "UINT",
        Elementary::Udint => "UDINT",
        Elementary::Time => "TIME",
    }
}

// The word of a truth value.
fn truth_word(value: bool) -> &'static str
    ensures { result.now ≡ truth_word value }
{
    if value { "TRUE" } else { "FALSE" }
}

/// ` is INT`, and the end of the line.
pub fn put_is(text: &mut String, found: Elementary) -> Result<(), AllocError>
    ensures { OnOk result (Puts text.old text.new (is_text found)) }
{
    put_three(text, " is ", type_word(found), "\n")
}

// ` INT`, where the type has a number.
fn put_fit(text: &mut String, value: i64, elementary: Elementary) -> Result<(), AllocError>
    ensures { OnOk result (Puts text.old text.new (fit_text value elementary)) }
{
    if has_value(elementary, value) {
        put_two(text, " ", type_word(elementary))
    } else {
        Ok(())
    }
}

// The integer types that have a number.
fn put_fits(text: &mut String, value: i64) -> Result<(), AllocError>
    ensures { OnOk result (Puts text.old text.new (fits_text value)) }
{
    put_fit(text, value, Elementary::Sint)?;
    put_fit(text, value, Elementary::Int)?;
    put_fit(text, value, Elementary::Dint)?;
    put_fit(text, value, Elementary::Usint)?;
    put_fit(text, value, Elementary::Uint)?;
    put_fit(text, value, Elementary::Udint)
}

// Whether all integer types have a number.
fn fits_all(value: i64) -> bool
    ensures { result ≡ fits_all value }
{
    has_value(Elementary::Sint, value) && has_value(Elementary::Usint, value)
}

// Whether an integer type has a number.
fn fits_one(value: i64) -> bool
    ensures { result ≡ fits_one value }
{
    has_value(Elementary::Dint, value) || has_value(Elementary::Udint, value)
}

// Of a number that some integer types have and some don't, those that have it.
#[tactic(auto, unfolding(crate::specs::TypeWords::fitting_text))]
fn put_fitting(text: &mut String, value: i64) -> Result<(), AllocError>
    ensures { OnOk result (Puts text.old text.new (fitting_text value)) }
{
    if fits_all(value) {
        Ok(())
    } else if fits_one(value) {
        text.push_str("; it fits")?;
        put_fits(text, value)
    } else {
        text.push_str("; it fits no integer type")
    }
}

// `40000 is a bare number; it fits DINT UINT UDINT`
fn put_bare(text: &mut String, value: i64) -> Result<(), AllocError>
    ensures { OnOk result (Puts text.old text.new (bare_line value)) }
{
    write!(text, "{} is a bare number", value)?;
    put_fitting(text, value)?;
    text.push_str("\n")
}

/// `5 is a bare number`, `INT#5 is INT`; of a number that not every integer type has, those that have it.
pub fn put_literal(text: &mut String, literal: Literal) -> Result<(), AllocError>
    ensures { OnOk result (Puts text.old text.new (literal_line literal)) }
{
    match literal {
        Literal::Truth(value) => {
            text.push_str(truth_word(value))?;
            put_is(text, Elementary::Bool)
        }
        Literal::Bare(value) => put_bare(text, value),
        Literal::Whole(written, value) => {
            write!(text, "{}#{}", type_word(written), value)?;
            put_is(text, written)
        }
        Literal::Time(value) => {
            write!(text, "T#{}ms", value)?;
            put_is(text, Elementary::Time)
        }
    }
}

// `V is INT`, of a scalar variable.
fn put_name<S: Scope>(text: &mut String, scope: &S, name: &str) -> Result<(), AllocError>
    ensures { OnOk result (Puts text.old text.new
        (name_line (S.config scope.now) (S.unit scope.now) name.now)) }
{
    match scope.name_type(name) {
        Some(found) => put_four(text, name, " is ", type_word(found), "\n"),
        None => Ok(()),
    }
}

// `I is INT`, of the variable of an index.
fn put_index_type<S: Scope>(text: &mut String, scope: &S, index: &Index) -> Result<(), AllocError>
    ensures { OnOk result (Puts text.old text.new
        (index_line (S.config scope.now) (S.unit scope.now) index.now)) }
{
    match index {
        Index::Number(_) => Ok(()),
        Index::Variable(name) => put_name(text, scope, name.as_str()),
    }
}

// `V[I] is INT`
#[tactic(auto, unfolding(il_statics::specs::Types::reference_type))]
fn put_element<S: Scope>(
    text: &mut String,
    scope: &S,
    name: &str,
    index: &Index,
) -> Result<(), AllocError>
    ensures { OnOk result (Puts text.old text.new
        (element_line (S.config scope.now) (S.unit scope.now) name.now index.now)) }
{
    match scope.element_type(name) {
        Some(found) => {
            write!(text, "{}[", name)?;
            put_index(text, index)?;
            text.push_str("]")?;
            put_is(text, found)
        }
        None => Ok(()),
    }
}

// `T.ET is TIME`
#[tactic(auto, unfolding(il_statics::specs::Types::reference_type))]
fn put_member<S: Scope>(
    text: &mut String,
    scope: &S,
    name: &str,
    word: &str,
) -> Result<(), AllocError>
    ensures { OnOk result (Puts text.old text.new
        (member_line (S.config scope.now) (S.unit scope.now) name.now word.now)) }
{
    match scope.member_type(name, word) {
        Some(found) => {
            put_three(text, name, ".", word)?;
            put_is(text, found)
        }
        None => Ok(()),
    }
}

// An operand with its type, and the variable of its index with its own.
fn put_reference<S: Scope>(
    text: &mut String,
    scope: &S,
    reference: &Reference,
) -> Result<(), AllocError>
    ensures { OnOk result (Puts text.old text.new
        (reference_lines (S.config scope.now) (S.unit scope.now) reference.now)) }
{
    match reference {
        Reference::Literal(literal) => put_literal(text, *literal),
        Reference::Variable(name) => put_name(text, scope, name.as_str()),
        Reference::Element(name, index) => {
            put_element(text, scope, name.as_str(), index)?;
            put_index_type(text, scope, index)
        }
        Reference::Member(name, word) => put_member(text, scope, name.as_str(), word.as_str()),
    }
}

// Operands, in the written order.
fn put_operands<S: Scope>(
    text: &mut String,
    scope: &S,
    operands: &[Operand],
) -> Result<(), AllocError>
    ensures { OnOk result (Puts text.old text.new
        (operands_lines (S.config scope.now) (S.unit scope.now) operands.now)) }
{
    'operands: for operand in operands {
        put_reference(text, scope, &operand.reference)?;
    }
    Ok(())
}

// An argument of a CAL: the input or output of the instance, and its operand.
fn put_argument<S: Scope>(
    text: &mut String,
    scope: &S,
    instance: &str,
    argument: &Argument,
) -> Result<(), AllocError>
    ensures { OnOk result (Puts text.old text.new
        (argument_lines (S.config scope.now) (S.unit scope.now) instance.now argument.now)) }
{
    match argument {
        Argument::Input { word, operand } => {
            put_member(text, scope, instance, word.name.as_str())?;
            put_reference(text, scope, &operand.reference)
        }
        Argument::Output { word, target } => {
            put_member(text, scope, instance, word.name.as_str())?;
            put_name(text, scope, target.name.as_str())
        }
    }
}

// Arguments, in the written order.
fn put_arguments<S: Scope>(
    text: &mut String,
    scope: &S,
    instance: &str,
    arguments: &[Argument],
) -> Result<(), AllocError>
    ensures { OnOk result (Puts text.old text.new
        (arguments_lines (S.config scope.now) (S.unit scope.now) instance.now arguments.now)) }
{
    'arguments: for argument in arguments {
        put_argument(text, scope, instance, argument)?;
    }
    Ok(())
}

/// The operands of an instruction, each with its type, in the order of the text.
pub fn put_operands_of<S: Scope>(
    text: &mut String,
    scope: &S,
    instruction: &Instruction,
) -> Result<(), AllocError>
    ensures { OnOk result (Puts text.old text.new
        (operand_lines (S.config scope.now) (S.unit scope.now) instruction.now)) }
{
    match instruction {
        Instruction::Load { operand, .. } => put_reference(text, scope, &operand.reference),
        Instruction::Store { target, .. } => put_reference(text, scope, &target.reference),
        Instruction::Operate { operand, .. } => put_reference(text, scope, &operand.reference),
        Instruction::Defer { first, .. } => match first {
            Some(operand) => put_reference(text, scope, &operand.reference),
            None => Ok(()),
        },
        Instruction::Call {
            instance,
            arguments,
            ..
        } => put_arguments(text, scope, instance.name.as_str(), arguments.as_slice()),
        Instruction::Invoke { operands, .. } => put_operands(text, scope, operands.as_slice()),
        _ => Ok(()),
    }
}
