// Typed literals (IEC 61131-3:2003, 2.2.1 and 2.2.3.1).

ghost use Rattle.std.specs.Prelude.{◌≡◌, ◌↔◌, IsTrue, IsFalse, IfOk, IfErr, Some, None};
ghost use Rattle.il_syntax.specs.declared.tree.Elementary.TheVariants.{Time};
ghost use Rattle.il_syntax.specs.declared.tree.Literal.{Literal};
ghost use Rattle.il_syntax.specs.ElementaryTypes.{IsValueOf};
ghost use Rattle.il_syntax.specs.Text.{entry_of, whole_type_words, duration_words, IsTyped, upper_case};
ghost use Rattle.load_tokens.specs.LexicalErrors.{typed_error};

use crate::bytes::is_in_upper_case;
use crate::duration::duration_of;
use crate::error::LexicalError;
use crate::number::number_of;
use il_syntax::tree::{Elementary, Literal};

// The integer type that a word names.
#[tactic(auto, unfolding(il_syntax::specs::Text::entry_of))]
fn whole_type(word: &[u8]) -> Option<Elementary>
    ensures { result ≡ entry_of whole_type_words (upper_case word.now) }
{
    if is_in_upper_case(word, b"SINT") {
        Some(Elementary::Sint)
    } else if is_in_upper_case(word, b"INT") {
        Some(Elementary::Int)
    } else if is_in_upper_case(word, b"DINT") {
        Some(Elementary::Dint)
    } else if is_in_upper_case(word, b"USINT") {
        Some(Elementary::Usint)
    } else if is_in_upper_case(word, b"UINT") {
        Some(Elementary::Uint)
    } else if is_in_upper_case(word, b"UDINT") {
        Some(Elementary::Udint)
    } else {
        None
    }
}

// Whether this word comes before a duration.
#[tactic(auto, unfolding(il_syntax::specs::Text::entry_of))]
fn begins_duration(word: &[u8]) -> bool
    ensures yes { IsTrue result → entry_of duration_words (upper_case word.now) ≡ Some Time }
    ensures no { IsFalse result → entry_of duration_words (upper_case word.now) ≡ None }
{
    is_in_upper_case(word, b"T") || is_in_upper_case(word, b"TIME")
}

// Whether a number is a value of a type.
fn is_value_of(elementary: Elementary, value: i64) -> bool
    ensures { IsTrue result ↔ IsValueOf elementary value }
{
    let (lower, upper) = match elementary {
        Elementary::Bool => return false,
        Elementary::Sint => (-128, 127),
        Elementary::Int => (-32_768, 32_767),
        Elementary::Dint => (-2_147_483_648, 2_147_483_647),
        Elementary::Usint => (0, 255),
        Elementary::Uint => (0, 65_535),
        Elementary::Udint => (0, 4_294_967_295),
        Elementary::Time => (0, 2_147_483_647),
    };
    lower <= value && value <= upper
}

/// The literal of a word, `#`, and these bytes.
pub(crate) fn typed_literal(word: &[u8], bytes: &[u8]) -> Result<Literal, LexicalError>
    ensures found { IfOk result (λ l. IsTyped (upper_case word.now) bytes.now l) }
    ensures refused { IfErr result (λ _. (l : Literal)
        → IsTyped (upper_case word.now) bytes.now l → ⊥) }
    ensures error { IfErr result (λ f. f ≡ typed_error (upper_case word.now) bytes.now) }
{
    if let Some(elementary) = whole_type(word) {
        let value = number_of(bytes)?;
        if !is_value_of(elementary, value) {
            return Err(LexicalError::NumberTooLarge);
        }
        return Ok(Literal::Whole(elementary, value));
    }
    if begins_duration(word) {
        let value = duration_of(bytes)?;
        return Ok(Literal::Time(value));
    }
    Err(LexicalError::BadNumber)
}
