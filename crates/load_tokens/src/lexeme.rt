// Tokens, each by itself (IEC 61131-3:2003, 2.1 and 2.2).

ghost use Rattle.std.specs.Prelude.{◌≡◌, ℕ, ℤ, ◌<◌, ◌≤◌, length, slice_range, IsTrue, IsFalse, IfOk, IfErr, IfSome, IfNone};
ghost use Rattle.std.specs.Char.{is_ascii_digit, is_ascii_alphanumeric};
ghost use Rattle.il_syntax.specs.declared.token.Sign.{Sign};
ghost use Rattle.il_syntax.specs.declared.token.Kind.TheVariants.{Word, Number, Typed, Sign as Signed, LineEnd};
ghost use Rattle.il_syntax.specs.declared.tree.Literal.{Literal};
ghost use Rattle.il_syntax.specs.Text.{byte_at, begins_word, after_minus, is_grouped, is_identifier, IsLexeme, run_end, is_literal_byte, number_value};
ghost use Rattle.load_tokens.specs.Lanes.{AllPassBetween};
ghost use Rattle.load_tokens.specs.Pieces.{HasNoLexeme};
ghost use Rattle.load_tokens.specs.LexicalErrors.{form_or_size, lexeme_error};

use crate::bytes::{after_minus, begins_word, byte_at, literal_end, seen_end, word_end};
use crate::error::LexicalError;
use crate::literal::typed_literal;
use crate::number::number_of;
use crate::sign::sign_of;
use il_syntax::token::Kind;

// The length of the longest word (own rule).
const LONGEST_WORD: usize = 32;

// Whether these are letters and digits, with single underscores between them.
fn is_grouped(bytes: &[u8]) -> bool
    ensures { result ≡ is_grouped is_ascii_alphanumeric bytes.now }
{
    let mut inside = false;
    for byte in bytes {
        if *byte == b'_' {
            if !inside {
                return false;
            }
            inside = false;
        } else {
            if !byte.is_ascii_alphanumeric() {
                return false;
            }
            inside = true;
        }
    }
    inside
}

// Whether these are letters and digits with single underscores between them, and at most one before them.
#[tactic(auto, unfolding(il_syntax::specs::Text::is_identifier))]
fn is_identifier(word: &[u8]) -> bool
    ensures { result ≡ is_identifier word.now }
{
    if byte_at(word, 0) == b'_' {
        is_grouped(&word[1..])
    } else {
        is_grouped(word)
    }
}

// Whether an identifier is from `at` up to `end`, where letters and digits alone are up to `seen`.
#[inline(always)]
fn is_identifier_at(text: &[u8], at: usize, seen: usize, end: usize) -> bool
    requires inside { at < end × end ≤ length text.now }
    requires pass { AllPassBetween is_ascii_alphanumeric text.now at seen }
    ensures { result ≡ is_identifier (slice_range text.now at end) }
{
    if end <= seen {
        return true;
    }
    is_identifier(&text[at..end])
}

// The word or the typed literal at `at`, and where it ends.
fn word_at(text: &[u8], at: usize) -> Result<(Kind, usize), LexicalError>
    requires inside { at < length text.now }
    requires begins { IsTrue (begins_word (byte_at text.now at)) }
    ensures found { IfOk result (λ r. IsLexeme text.now r.0 at r.1) }
    ensures no_word { IfErr result (λ _. (j : ℕ) → IsLexeme text.now Word at j → ⊥) }
    ensures no_literal { IfErr result (λ _. (l : Literal) (j : ℕ)
        → IsLexeme text.now (Typed l) at j → ⊥) }
    ensures error { IfErr result (λ f. f ≡ lexeme_error text.now at) }
{
    let seen = seen_end(text, at);
    let end = word_end(text, at, seen);
    if byte_at(text, end) == b'#' {
        let behind = end + 1;
        let literal_end = literal_end(text, after_minus(text, behind));
        let literal = typed_literal(&text[at..end], &text[behind..literal_end])?;
        return Ok((Kind::Typed(literal), literal_end));
    }
    if end - at > LONGEST_WORD || !is_identifier_at(text, at, seen, end) {
        return Err(LexicalError::BadIdentifier);
    }
    Ok((Kind::Word, end))
}

// The number at `at`, and where it ends.
fn number_at(text: &[u8], at: usize) -> Result<(Kind, usize), LexicalError>
    requires inside { at < length text.now }
    requires begins { IsTrue (is_ascii_digit (byte_at text.now (after_minus text.now at))) }
    ensures found { IfOk result (λ r. IsLexeme text.now r.0 at r.1) }
    ensures none { IfErr result (λ _. (v : ℤ) (j : ℕ) → IsLexeme text.now (Number v) at j → ⊥) }
    ensures error { IfErr result (λ f. f ≡ form_or_size
        (number_value (slice_range text.now at
        (run_end is_literal_byte text.now (after_minus text.now at))))) }
{
    let end = literal_end(text, after_minus(text, at));
    let value = number_of(&text[at..end])?;
    Ok((Kind::Number(value), end))
}

// The sign or the line end at `at`, and where it ends.
fn sign_at(text: &[u8], at: usize) -> Option<(Kind, usize)>
    requires { at < length text.now }
    ensures found { IfSome result (λ r. IsLexeme text.now r.0 at r.1) }
    ensures no_sign { IfNone result ((s : Sign) (j : ℕ) → IsLexeme text.now (Signed s) at j → ⊥) }
    ensures no_line_end { IfNone result ((j : ℕ) → IsLexeme text.now LineEnd at j → ⊥) }
{
    let first = byte_at(text, at);
    let second = byte_at(text, at + 1);
    match (first, second) {
        (b'\n', _) => Some((Kind::LineEnd, at + 1)),
        (b'\r', b'\n') => Some((Kind::LineEnd, at + 2)),
        _ => {
            let (sign, length) = sign_of(first, second)?;
            Some((Kind::Sign(sign), at + length))
        }
    }
}

/// The token at `at`, and where it ends.
pub(crate) fn lexeme_at(text: &[u8], at: usize) -> Result<(Kind, usize), LexicalError>
    requires { at < length text.now }
    ensures found { IfOk result (λ r. IsLexeme text.now r.0 at r.1) }
    ensures none { IfErr result (λ _. HasNoLexeme text.now at) }
    ensures error { IfErr result (λ f. f ≡ lexeme_error text.now at) }
{
    if begins_word(byte_at(text, at)) {
        return word_at(text, at);
    }
    if byte_at(text, after_minus(text, at)).is_ascii_digit() {
        return number_at(text, at);
    }
    match sign_at(text, at) {
        Some(found) => Ok(found),
        None => Err(LexicalError::BadByte),
    }
}
