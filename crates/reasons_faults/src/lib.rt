//! What is reported of a refusal beside its number and its place: the thing that is there.
#![tactic(auto)]

ghost use Rattle.std.specs.Prelude.{◌≡◌, ◌++◌, ◌≤◌, false, length, IfOk, OnOk};
ghost use Rattle.il_syntax.specs.Grammar.{Spells};
ghost use Rattle.il_syntax.specs.Text.{AreTokens};
ghost use Rattle.load_text.specs.Loading.{SpellsNone};
ghost use Rattle.reasons_faults.specs.LimitReasons.{size_line};
ghost use Rattle.reasons_faults.specs.Reasons.{IsReason, AreTold, left_out_of, is_of_ranges, is_of_chains, is_of_costs};
ghost use Rattle.il_syntax.specs.declared.limits.TheConstants.{LONGEST_TEXT};

mod chain_search;
mod chain_uses;
mod chains;
mod costs;
mod limits;
mod tasks;
mod tree;

use il_statics::Written;
use il_syntax::fault::Refusal;
use il_syntax::token::Token;
use il_syntax::tree::Place;
use load_scope::Scoped;
use load_tokens::tokens;
use reasons_tokens::fractions::put_literal;
use reasons_tokens::left_out::put_stray;
use reasons_tokens::{spelled, unexpected};
use std::alloc::{AllocError, Global};

/// What is reported of the refusal of a text with a number at a place: lines, each with its line feed, or none (own rule).
pub fn reason(alloc: Global, text: &[u8], number: u16, place: Place) -> Result<Vec<u8>, AllocError>
    ensures { IfOk result (λ lines. IsReason text.now number place lines.items) }
{
    if is_of_ranges(number) {
        reasons_ranges::ranges::told(alloc, text, number, place)
    } else {
        of_tree(alloc, text, number, place)
    }
}

// What is reported of a fault that is found in the tree alone.
fn of_tree(alloc: Global, text: &[u8], number: u16, place: Place) -> Result<Vec<u8>, AllocError>
    requires { is_of_ranges number ≡ false }
    ensures { IfOk result (λ lines. IsReason text.now number place lines.items) }
{
    match spelled(alloc, text) {
        Ok(written) => told_of_text(alloc, text, written, number, place),
        Err(Refusal::Memory) => Err(AllocError),
        Err(Refusal::Fault { .. }) => unspelled(alloc, text, number, place),
    }
}

// What is reported of a text that spells no configuration.
fn unspelled(alloc: Global, text: &[u8], number: u16, place: Place) -> Result<Vec<u8>, AllocError>
    requires spelled { SpellsNone text.now }
    requires other { is_of_ranges number ≡ false }
    ensures { IfOk result (λ lines. IsReason text.now number place lines.items) }
{
    if number == 10 {
        token_told(alloc, text, number, place)
    } else if number == 1 {
        byte_told(alloc, text, number, place)
    } else if number == 3 {
        literal_told(alloc, text, number, place)
    } else if number == 12 {
        size_told(alloc, text, number, place)
    } else {
        Ok(Vec::new(alloc))
    }
}

// What is reported of a text with too many units, or of a unit with too many instructions.
#[tactic(auto, unfolding(crate::specs::LimitReasons::size_line))]
fn size_told(alloc: Global, text: &[u8], number: u16, place: Place) -> Result<Vec<u8>, AllocError>
    requires spelled { SpellsNone text.now }
    requires number { number ≡ 12 }
    ensures { IfOk result (λ lines. IsReason text.now number place lines.items) }
{
    let mut lines = Vec::new(alloc);
    lines.extend_from_slice(
        b"a unit has at most 4096 instructions, and a text at most 64 units\n",
    )?;
    Ok(lines)
}

// What is reported of a byte that has no place in a text.
fn byte_told(alloc: Global, text: &[u8], number: u16, place: Place) -> Result<Vec<u8>, AllocError>
    requires spelled { SpellsNone text.now }
    requires number { number ≡ 1 }
    ensures { IfOk result (λ lines. IsReason text.now number place lines.items) }
{
    let mut lines = Vec::new(alloc);
    put_stray(&mut lines, text, place.offset)?;
    Ok(lines)
}

// What is reported of a literal that is not well formed.
fn literal_told(
    alloc: Global,
    text: &[u8],
    number: u16,
    place: Place,
) -> Result<Vec<u8>, AllocError>
    requires spelled { SpellsNone text.now }
    requires number { number ≡ 3 }
    ensures { IfOk result (λ lines. IsReason text.now number place lines.items) }
{
    let mut lines = Vec::new(alloc);
    put_literal(&mut lines, text, place.offset)?;
    Ok(lines)
}

// What is reported of an unexpected token.
fn token_told(alloc: Global, text: &[u8], number: u16, place: Place) -> Result<Vec<u8>, AllocError>
    requires spelled { SpellsNone text.now }
    requires other { is_of_ranges number ≡ false }
    requires number { number ≡ 10 }
    ensures { IfOk result (λ lines. IsReason text.now number place lines.items) }
{
    match tokens(alloc, text) {
        Ok(tokens) => unexpected::told(alloc, text, &tokens, place),
        Err(Refusal::Memory) => Err(AllocError),
        Err(Refusal::Fault { .. }) => Ok(Vec::new(alloc)),
    }
}

// What is reported of a fault of a configuration that a text spells, and of a type that the language leaves out.
fn told_of_text(
    alloc: Global,
    text: &[u8],
    written: Written,
    number: u16,
    place: Place,
) -> Result<Vec<u8>, AllocError>
    requires other { is_of_ranges number ≡ false }
    requires spelled { Spells text.now written }
    requires short { length text.now ≤ LONGEST_TEXT }
    ensures { IfOk result (λ lines. IsReason text.now number place lines.items) }
{
    match tokens(alloc, text) {
        Ok(tokens) => {
            let mut lines = told(alloc, written, number, place)?;
            put_left_out(alloc, &mut lines, text, &tokens, number, place)?;
            Ok(lines)
        }
        Err(Refusal::Memory) => Err(AllocError),
        Err(Refusal::Fault { .. }) => unreachable!(),
    }
}

// Of an unknown name, a type that the language leaves out.
fn put_left_out(
    alloc: Global,
    lines: &mut Vec<u8>,
    text: &[u8],
    tokens: &[Token],
    number: u16,
    place: Place,
) -> Result<(), AllocError>
    requires { AreTokens text.now 0 tokens.now }
    ensures { OnOk result (lines.new.items ≡ lines.old.items
        ++ left_out_of text.now tokens.now number place) }
{
    if number == 21 {
        unexpected::put_named_at(alloc, lines, text, tokens, place.offset)
    } else {
        Ok(())
    }
}

// What is reported of a fault of a configuration.
fn told(alloc: Global, written: Written, number: u16, place: Place) -> Result<Vec<u8>, AllocError>
    ensures { IfOk result (λ lines. AreTold written number place lines.items) }
{
    let names = Scoped::of(alloc, written)?;
    if is_of_chains(number) {
        chains::told(alloc, &names, number, place)
    } else if is_of_costs(number) {
        costs::told(alloc, &names, place)
    } else {
        tree::told(alloc, &names, number, place)
    }
}

// Whether a number is that of a fault of ranges.
fn is_of_ranges(number: u16) -> bool
    ensures { result ≡ is_of_ranges number }
{
    matches!(number, 40 | 41 | 42 | 43 | 44)
}

// Whether it is that of a fault of chains of uses.
fn is_of_chains(number: u16) -> bool
    ensures { result ≡ is_of_chains number }
{
    matches!(number, 36 | 46)
}

// Whether it is that of a unit that costs too much.
fn is_of_costs(number: u16) -> bool
    ensures { result ≡ is_of_costs number }
{
    number == 50
}
