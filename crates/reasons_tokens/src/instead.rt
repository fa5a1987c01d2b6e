// What to write instead of an unexpected token, by the tokens before it and in its line.

ghost use Rattle.std.specs.Prelude.{◌≡◌, ◌++◌, option_map, slice_get, IfOk, OnOk};
ghost use Rattle.il_syntax.specs.Text.{AreTokens};
ghost use Rattle.reasons_tokens.specs.Instead.{mark_of_sign, mark_by, mark_of, before_token, initial_line, element_line, initial_by, element_by, bracket_by, sign_lines, is_not, is_negated, negated_line, negated_by, ampersand_line, argument_line, argument_by, not_after, not_by, not_lines, is_statement, statement_line, from_line, statement_by, statement_of, statement_lines, is_open, token_lines, instead_lines};
ghost use Rattle.reasons_tokens.specs.TokenReasons.{token_at};

use crate::left_out::token_before;
use crate::parentheses::open_at;
use crate::unexpected::{in_upper_case, token_at, word_of};
use il_syntax::token::{Kind, Sign, Token};
use il_syntax::tree::Place;
use load_lines::Source;
use std::alloc::{AllocError, Global};

/// What is at a place, as far as it is looked at.
#[derive(Clone, Copy)]
pub(crate) enum Mark {
    /// `:=`
    Assign,
    /// `=>`
    Arrow,
    /// `&`
    Ampersand,
    /// `(`
    Parenthesis,
    /// `[`
    Bracket,
    /// A word or a literal.
    Plain,
    /// Another sign, the end of a line, or nothing.
    Other,
}

impl Mark {
    // That of a sign.
    fn of_sign(sign: Sign) -> Mark
        ensures { result ≡ mark_of_sign sign }
    {
        match sign {
            Sign::Assign => Mark::Assign,
            Sign::Arrow => Mark::Arrow,
            Sign::Ampersand => Mark::Ampersand,
            Sign::OpenParenthesis => Mark::Parenthesis,
            Sign::OpenBracket => Mark::Bracket,
            _ => Mark::Other,
        }
    }

    // That of what a token is.
    fn of_kind(kind: Kind) -> Mark
        ensures { result ≡ mark_by kind }
    {
        match kind {
            Kind::Word => Mark::Plain,
            Kind::Number(_) => Mark::Plain,
            Kind::Typed(_) => Mark::Plain,
            Kind::Sign(sign) => Mark::of_sign(sign),
            Kind::LineEnd => Mark::Other,
        }
    }

    // That of a token, if there is one.
    fn of(token: Option<Token>) -> Mark
        ensures { result ≡ mark_of token }
    {
        match token {
            Some(token) => Mark::of_kind(token.kind),
            None => Mark::Other,
        }
    }
}

// The token before another one, if there is one.
fn before_token(tokens: &[Token], token: Option<Token>) -> Option<Token>
    ensures { result ≡ before_token tokens.now token }
{
    match token {
        Some(token) => token_before(tokens, token.start),
        None => None,
    }
}

#[tactic(auto, unfolding(crate::specs::Instead::initial_line))]
fn put_initial(lines: &mut Vec<u8>) -> Result<(), AllocError>
    ensures { OnOk result (lines.new.items ≡ lines.old.items ++ initial_line) }
{
    lines.extend_from_slice(
        b"an array has no initial value: its elements start at FALSE, 0, T#0s or the lower limit of their subrange\n",
    )
}

#[tactic(auto, unfolding(crate::specs::Instead::element_line))]
fn put_element(lines: &mut Vec<u8>) -> Result<(), AllocError>
    ensures { OnOk result (lines.new.items ≡ lines.old.items ++ element_line) }
{
    lines.extend_from_slice(
        b"an output goes to a variable, not to an element: load it after the CAL, and store it there\n",
    )
}

// Of a `[` after the `:=` of a declaration.
fn put_initial_by(lines: &mut Vec<u8>, inside: bool) -> Result<(), AllocError>
    ensures { OnOk result (lines.new.items ≡ lines.old.items ++ initial_by inside) }
{
    if inside { Ok(()) } else { put_initial(lines) }
}

// Of a `[` after a name, after the `=>` of an output.
fn put_element_by(lines: &mut Vec<u8>, second: Mark) -> Result<(), AllocError>
    ensures { OnOk result (lines.new.items ≡ lines.old.items ++ element_by second) }
{
    match second {
        Mark::Arrow => put_element(lines),
        _ => Ok(()),
    }
}

// Of a `[`, by the two tokens before it.
fn put_bracket(
    lines: &mut Vec<u8>,
    inside: bool,
    second: Mark,
    before: Mark,
) -> Result<(), AllocError>
    ensures { OnOk result (lines.new.items ≡ lines.old.items ++ bracket_by inside second before) }
{
    match before {
        Mark::Assign => put_initial_by(lines, inside),
        Mark::Plain => put_element_by(lines, second),
        _ => Ok(()),
    }
}

// Of a sign, by the two tokens before it.
fn put_sign(
    lines: &mut Vec<u8>,
    inside: bool,
    second: Mark,
    before: Mark,
    found: Mark,
) -> Result<(), AllocError>
    ensures { OnOk result (lines.new.items ≡ lines.old.items
        ++ sign_lines inside second before found) }
{
    match found {
        Mark::Bracket => put_bracket(lines, inside, second, before),
        _ => Ok(()),
    }
}

#[tactic(auto, unfolding(crate::specs::Instead::is_not))]
fn is_not(word: &str) -> bool
    ensures { result ≡ is_not word.now }
{
    word == "NOT"
}

#[tactic(auto, unfolding(crate::specs::Instead::is_negated))]
fn is_negated(word: &str) -> bool
    ensures { result ≡ is_negated word.now }
{
    word == "LD" || word == "ST" || word == "AND" || word == "OR" || word == "XOR"
}

// Three pieces of text.
fn put_three(lines: &mut Vec<u8>, first: &str, second: &str, third: &str) -> Result<(), AllocError>
    ensures { OnOk result (lines.new.items ≡ lines.old.items
        ++ (first.now ++ (second.now ++ third.now))) }
{
    lines.extend_from_slice(first.as_bytes())?;
    lines.extend_from_slice(second.as_bytes())?;
    lines.extend_from_slice(third.as_bytes())
}

// `write ANDN`
#[tactic(auto, unfolding(crate::specs::Instead::negated_line))]
fn put_negated(lines: &mut Vec<u8>, word: &str) -> Result<(), AllocError>
    ensures { OnOk result (lines.new.items ≡ lines.old.items ++ negated_line word.now) }
{
    put_three(lines, "write ", word, "N\n")
}

#[tactic(auto, unfolding(crate::specs::Instead::ampersand_line))]
fn put_ampersand(lines: &mut Vec<u8>) -> Result<(), AllocError>
    ensures { OnOk result (lines.new.items ≡ lines.old.items ++ ampersand_line) }
{
    lines.extend_from_slice(b"write &N\n")
}

#[tactic(auto, unfolding(crate::specs::Instead::argument_line))]
fn put_argument(lines: &mut Vec<u8>) -> Result<(), AllocError>
    ensures { OnOk result (lines.new.items ≡ lines.old.items ++ argument_line) }
{
    lines.extend_from_slice(
        b"an argument is one operand: store its negation into a variable before the CAL\n",
    )
}

// Of a NOT after the `:=` of an argument.
fn put_argument_by(lines: &mut Vec<u8>, inside: bool) -> Result<(), AllocError>
    ensures { OnOk result (lines.new.items ≡ lines.old.items ++ argument_by inside) }
{
    if inside { put_argument(lines) } else { Ok(()) }
}

// Of a NOT after a sign.
fn put_not_after(lines: &mut Vec<u8>, inside: bool, mark: Mark) -> Result<(), AllocError>
    ensures { OnOk result (lines.new.items ≡ lines.old.items ++ not_after inside mark) }
{
    match mark {
        Mark::Assign => put_argument_by(lines, inside),
        Mark::Ampersand => put_ampersand(lines),
        _ => Ok(()),
    }
}

// Of a NOT after an operator.
fn put_not_operator(lines: &mut Vec<u8>, word: &str) -> Result<(), AllocError>
    ensures { OnOk result (lines.new.items ≡ lines.old.items ++ negated_by word.now) }
{
    if is_negated(word) {
        put_negated(lines, word)
    } else {
        Ok(())
    }
}

// Of a NOT, by the word before it, or the sign.
fn put_not_by(
    lines: &mut Vec<u8>,
    inside: bool,
    mark: Mark,
    before: Option<&str>,
) -> Result<(), AllocError>
    ensures { OnOk result (lines.new.items ≡ lines.old.items
        ++ not_by inside mark (option_map (λ w. w.now) before.entry)) }
{
    match before {
        Some(word) => put_not_operator(lines, word),
        None => put_not_after(lines, inside, mark),
    }
}

// Of a word, if it is NOT.
fn put_not(
    lines: &mut Vec<u8>,
    inside: bool,
    mark: Mark,
    before: Option<&str>,
    found: Option<&str>,
) -> Result<(), AllocError>
    ensures { OnOk result (lines.new.items ≡ lines.old.items
        ++ not_lines inside mark (option_map (λ w. w.now) before.entry)
        (option_map (λ w. w.now) found.entry)) }
{
    match found {
        Some(word) => {
            if is_not(word) {
                put_not_by(lines, inside, mark, before)
            } else {
                Ok(())
            }
        }
        None => Ok(()),
    }
}

#[tactic(auto, unfolding(crate::specs::Instead::is_statement))]
fn is_statement(word: &str) -> bool
    ensures { result ≡ is_statement word.now }
{
    word == "IF" || word == "CASE" || word == "FOR" || word == "WHILE" || word == "REPEAT"
}

#[tactic(auto, unfolding(crate::specs::Instead::statement_line))]
fn put_statement_line(lines: &mut Vec<u8>, word: &str) -> Result<(), AllocError>
    ensures { OnOk result (lines.new.items ≡ lines.old.items ++ statement_line word.now) }
{
    lines.extend_from_slice(word.as_bytes())?;
    lines.extend_from_slice(
        b" begins a statement of Structured Text: tools/st makes Instruction List of it\n",
    )
}

// Of a word that begins a statement, by the token after it.
fn put_statement_by(lines: &mut Vec<u8>, behind: Mark, word: &str) -> Result<(), AllocError>
    ensures { OnOk result (lines.new.items ≡ lines.old.items ++ statement_by behind word.now) }
{
    match behind {
        Mark::Plain => put_statement_line(lines, word),
        Mark::Parenthesis => put_statement_line(lines, word),
        _ => Ok(()),
    }
}

// Of the first word of a line, and the token after it.
fn put_statement_of(lines: &mut Vec<u8>, behind: Mark, word: Option<&str>) -> Result<(), AllocError>
    ensures { OnOk result (lines.new.items ≡ lines.old.items
        ++ statement_of behind (option_map (λ w. w.now) word.entry)) }
{
    match word {
        Some(word) => {
            if is_statement(word) {
                put_statement_by(lines, behind, word)
            } else {
                Ok(())
            }
        }
        None => Ok(()),
    }
}

// The token of a number.
fn nth(tokens: &[Token], at: usize) -> Option<Token>
    ensures { result ≡ slice_get tokens.now at }
{
    tokens.get(at).copied()
}

// The tokens from the first one of a line on.
fn from_line(tokens: &[Token], line: u32) -> &[Token]
    ensures { result.now ≡ from_line line tokens.now }
{
    'tokens: for at in 0..tokens.len() {
        if tokens[at].line == line {
            return &tokens[at..];
        }
    }
    &[]
}

// Of the first word of a line, by the tokens from there on.
fn put_statement(
    lines: &mut Vec<u8>,
    source: &Source<'_>,
    tokens: &[Token],
) -> Result<(), AllocError>
    ensures { OnOk result (lines.new.items ≡ lines.old.items
        ++ statement_lines source.now tokens.now) }
{
    let first = nth(tokens, 0);
    put_statement_of(lines, Mark::of(nth(tokens, 1)), word_of(source, &first))
}

// Whether a parenthesis is open at a place.
fn is_open(alloc: Global, tokens: &[Token], offset: u32) -> Result<bool, AllocError>
    ensures { IfOk result (λ inside. inside ≡ is_open tokens.now offset) }
{
    let found = open_at(alloc, tokens, offset)?;
    Ok(found.is_some())
}

// Of a token, by the one before it.
fn put_token(
    lines: &mut Vec<u8>,
    source: &Source<'_>,
    tokens: &[Token],
    inside: bool,
    before: Option<Token>,
    found: Option<Token>,
) -> Result<(), AllocError>
    ensures { OnOk result (lines.new.items ≡ lines.old.items
        ++ token_lines source.now tokens.now inside before found) }
{
    let second = before_token(tokens, before);
    put_sign(
        lines,
        inside,
        Mark::of(second),
        Mark::of(before),
        Mark::of(found),
    )?;
    put_not(
        lines,
        inside,
        Mark::of(before),
        word_of(source, &before),
        word_of(source, &found),
    )
}

/// Of the token at a place, and of its line.
pub(crate) fn put_instead(
    alloc: Global,
    lines: &mut Vec<u8>,
    text: &[u8],
    tokens: &[Token],
    place: Place,
) -> Result<(), AllocError>
    requires { AreTokens text.now 0 tokens.now }
    ensures { OnOk result (lines.new.items ≡ lines.old.items
        ++ instead_lines text.now tokens.now (token_at place.offset tokens.now) place) }
{
    let inside = is_open(alloc, tokens, place.offset)?;
    let upper = in_upper_case(alloc, text)?;
    let source = Source::new(alloc, text, &upper);
    let before = token_before(tokens, place.offset);
    let found = token_at(tokens, place.offset);
    put_token(lines, &source, tokens, inside, before, found)?;
    put_statement(lines, &source, from_line(tokens, place.line))
}
