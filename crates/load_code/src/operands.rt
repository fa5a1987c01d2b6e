// Operands of flat code.

ghost use Rattle.std.specs.Prelude.{◌≡◌, ◌+◌, ◌≤◌, ◌^◌};
ghost use Rattle.il_statics.specs.Declarations.{is_within};
ghost use Rattle.il_statics.specs.Names.{or_else};
ghost use Rattle.il_semantics.specs.Meaning.{natural, denotation, Constant, width};
ghost use Rattle.load_slots.specs.Program.{program_names};
ghost use Rattle.load_slots.specs.Cells.{IsShort};
ghost use Rattle.load_slots.specs.Flattened.{slot_of, index_in, numbered, typed, untyped, operand_of};
ghost use Rattle.load_code.specs.Resolving.{scalar_operand, direct_operand, numbered_by, numbered_operand, index_by, indexed_operand, inside_by, member_by, member_operand, element_operand, resolve, known, by_resolved, literal_known, slot_known, IsSmall};

use crate::here::Here;
use il_semantics::value::{Content, Value};
use il_statics::elementary::{declared_limits, has_value, is_within};
use il_syntax::tree::{Elementary, Index, Literal, Reference, Scalar, Subrange};
use load_scope::entry::VariableType;
use load_slots::flat::{Operand, Slot};
use load_slots::sizes::sum;

/// A variable, or a word of a block: its type, and how far it is from the first.
#[derive(Clone, Copy)]
pub struct Known {
    pub declared: VariableType,
    pub offset: usize,
}

/// What an operand resolves to.
#[derive(Clone, Copy)]
pub enum Resolved {
    Literal(Literal),
    Place(Operand),
}

/// The slot of a scalar at an offset.
pub fn slot_of(scalar: Scalar, offset: usize) -> Slot
    ensures { result ≡ slot_of scalar offset }
{
    match declared_limits(scalar) {
        None => Slot::Flag(offset),
        Some(_) => Slot::Number(scalar.elementary, offset),
    }
}

/// A literal of a type.
pub fn typed(elementary: Elementary, literal: Literal) -> Operand
    ensures { result ≡ typed elementary literal }
{
    let (elementary, value) = match literal {
        Literal::Truth(truth) => (Elementary::Bool, Value::Boolean(truth)),
        Literal::Bare(number) => (elementary, Value::Integer(number)),
        Literal::Whole(written, number) => (written, Value::Integer(number)),
        Literal::Time(number) => (Elementary::Time, Value::Integer(number)),
    };
    Operand::Constant(Content { elementary, value })
}

/// A literal; a bare one takes the type of the current result.
pub fn untyped(literal: Literal) -> Operand
    ensures { result ≡ untyped literal }
{
    match literal {
        Literal::Bare(number) => Operand::Bare(number),
        _ => typed(Elementary::Int, literal),
    }
}

/// The type that a loaded literal has: a bare one INT where it fits, otherwise DINT.
pub fn natural(literal: Literal) -> Elementary
    ensures { result ≡ natural (Constant literal) }
{
    match literal {
        Literal::Truth(_) => Elementary::Bool,
        Literal::Bare(number) if has_value(Elementary::Int, number) => Elementary::Int,
        Literal::Bare(_) => Elementary::Dint,
        Literal::Whole(written, _) => written,
        Literal::Time(_) => Elementary::Time,
    }
}

// A scalar at an offset.
fn scalar_operand(declared: VariableType, offset: usize) -> Operand
    ensures { result ≡ scalar_operand declared offset }
{
    match declared {
        VariableType::Scalar(scalar) => Operand::At(slot_of(scalar, offset)),
        _ => Operand::Outside,
    }
}

// A name alone.
fn direct_operand(known: Option<Known>) -> Operand
    ensures { result ≡ direct_operand known }
{
    match known {
        Some(known) => scalar_operand(known.declared, known.offset),
        None => Operand::Outside,
    }
}

// How far an element is from the first.
fn index_in(bounds: Subrange, number: i64) -> usize
    ensures { result ≡ index_in bounds number }
{
    number.abs_diff(bounds.lower) as usize
}

// An element by a number, if it is one of its array.
#[tactic(auto, using(crate::proofs::Resolve::index_fits))]
fn numbered(bounds: Subrange, element: Scalar, offset: usize, number: i64) -> Operand
    requires short { IsShort bounds.lower (width bounds) }
    requires small { offset ≤ 2 ^ 63 }
    ensures { result ≡ numbered (is_within bounds number)
        (slot_of element (offset + index_in bounds number)) }
{
    if !is_within(bounds, number) {
        return Operand::Outside;
    }
    Operand::At(slot_of(element, offset + index_in(bounds, number)))
}

// An element by a number.
fn numbered_operand(known: Option<Known>, number: i64) -> Operand
    requires { IsSmall known }
    ensures { result ≡ numbered_operand known number }
{
    let Some(known) = known else {
        return Operand::Outside;
    };
    match known.declared {
        VariableType::Array { bounds, element } => numbered(bounds, element, known.offset, number),
        _ => Operand::Outside,
    }
}

// An element by a variable.
fn indexed_operand(known: Option<Known>, index: Option<Known>) -> Operand
    ensures { result ≡ indexed_operand known index }
{
    match (known, index) {
        (Some(known), Some(index)) => index_by(known, index),
        _ => Operand::Outside,
    }
}

// An element of an array by a scalar variable.
fn index_by(known: Known, index: Known) -> Operand
    ensures { result ≡ index_by known.declared known.offset index.declared index.offset }
{
    match (known.declared, index.declared) {
        (VariableType::Array { bounds, element }, VariableType::Scalar(_)) => Operand::Element {
            first: slot_of(element, known.offset),
            bounds,
            index: index.offset,
        },
        _ => Operand::Outside,
    }
}

// A word of an instance at an offset.
fn inside_by(offset: usize, word: Option<Known>) -> Operand
    ensures { result ≡ inside_by offset word }
{
    match word {
        Some(word) => scalar_operand(word.declared, sum(offset, word.offset)),
        None => Operand::Outside,
    }
}

// A word of an instance.
fn member_operand(here: &Here, instance: Option<Known>, word: &str) -> Operand
    ensures { result ≡ member_operand here.now.scope.config instance word.now }
{
    let Some(instance) = instance else {
        return Operand::Outside;
    };
    match instance.declared {
        VariableType::Instance(Some(block)) => {
            let input = here.input(block, word);
            inside_by(instance.offset, here.output(block, word).or(input))
        }
        _ => Operand::Outside,
    }
}

// An element by its index.
fn element_operand(here: &Here, name: &str, index: &Index) -> Operand
    ensures { result ≡ element_operand (known here.now.scope.config here.now.scope.unit) name.now
        index.now }
{
    match index {
        Index::Number(number) => numbered_operand(here.known(name), *number),
        Index::Variable(variable) => {
            indexed_operand(here.known(name), here.known(variable.as_str()))
        }
    }
}

/// What an operand resolves to.
#[inline(always)]
pub fn resolve(here: &Here, from: &Reference) -> Resolved
    ensures { result ≡ resolve here.now.scope.config here.now.scope.unit from.now }
{
    match from {
        Reference::Literal(literal) => Resolved::Literal(*literal),
        Reference::Variable(name) => Resolved::Place(direct_operand(here.known(name.as_str()))),
        Reference::Element(name, index) => {
            Resolved::Place(element_operand(here, name.as_str(), index))
        }
        Reference::Member(instance, word) => {
            Resolved::Place(member_operand(here, here.known(instance.as_str()), word.as_str()))
        }
    }
}

/// A variable as an operand.
pub fn name_operand(here: &Here, name: &str) -> Operand
    ensures { result ≡ direct_operand (known here.now.scope.config here.now.scope.unit name.now) }
{
    direct_operand(here.known(name))
}

// A loaded literal has a type of its own.
fn loaded_by(resolved: Resolved) -> Operand
    ensures { result ≡ by_resolved (λ l. typed (natural (Constant l)) l) resolved }
{
    match resolved {
        Resolved::Literal(literal) => typed(natural(literal), literal),
        Resolved::Place(operand) => operand,
    }
}

// Another bare one takes the type of the current result.
fn untyped_by(resolved: Resolved) -> Operand
    ensures { result ≡ by_resolved untyped resolved }
{
    match resolved {
        Resolved::Literal(literal) => untyped(literal),
        Resolved::Place(operand) => operand,
    }
}

// A literal for a variable that is known.
fn literal_known(known: Option<Known>, literal: Literal) -> Operand
    ensures { result ≡ literal_known known literal }
{
    let Some(known) = known else {
        return Operand::Outside;
    };
    match known.declared {
        VariableType::Scalar(scalar) => typed(scalar.elementary, literal),
        _ => Operand::Outside,
    }
}

/// The operand for a variable that is known: a bare literal takes its type.
pub fn operand_for(known: Option<Known>, resolved: Resolved) -> Operand
    ensures { result ≡ by_resolved (literal_known known) resolved }
{
    match resolved {
        Resolved::Literal(literal) => literal_known(known, literal),
        Resolved::Place(operand) => operand,
    }
}

/// The operand of LD, and of a short form.
#[inline(always)]
pub fn loaded(here: &Here, from: &Reference) -> Operand
    ensures { result ≡ operand_of (program_names here.now.scope.config
        here.now.scope.unit.name.name) (λ l. typed (natural (Constant l)) l)
        (denotation here.now.scope.config here.now.scope.unit from.now) }
{
    loaded_by(resolve(here, from))
}

/// An operand beside a current result.
#[inline(always)]
pub fn beside(here: &Here, from: &Reference) -> Operand
    ensures { result ≡ operand_of (program_names here.now.scope.config
        here.now.scope.unit.name.name) untyped
        (denotation here.now.scope.config here.now.scope.unit from.now) }
{
    untyped_by(resolve(here, from))
}

/// The slot of a word at an offset, if it is a scalar.
pub fn slot_known(base: usize, known: Option<Known>) -> Slot
    ensures { result ≡ slot_known base known }
{
    let Some(known) = known else {
        return Slot::Flag(0);
    };
    match known.declared {
        VariableType::Scalar(scalar) => slot_of(scalar, sum(base, known.offset)),
        _ => Slot::Flag(0),
    }
}
