// Numbers of a line that may be as great as a ticket.

ghost use Rattle.std.specs.Prelude.{◌≡◌, ◌≤◌, ◌++◌, ℕ, List, decimal, IsTrue, ◌↔◌, IfSome, IfNone, IfOk, IfErr};
ghost use Rattle.trace_text.specs.Parts.{Ends, HasNoLeadingZero};
ghost use Rattle.trace_text.specs.Text.{part};
ghost use Rattle.group_state.specs.Saying.{SaysNumber, TakesNumber, RefusesNumber};

use crate::fault::StateFault;
use crate::lines::{behind, next_line};
use trace_text::parts::next_part;

// The greatest number that is read.
const MOST: u64 = 9_223_372_036_854_775_808;

// Whether there are digits, and no 0 before others.
fn has_no_leading_zero(digits: &[u8]) -> bool
    ensures { IsTrue result ↔ HasNoLeadingZero digits.now }
{
    match digits.split_first() {
        None => false,
        Some((first, rest)) => *first != b'0' || rest.is_empty(),
    }
}

/// The number that these bytes spell, where it is at most the greatest.
pub fn number_of(bytes: &[u8], greatest: u64) -> Option<u64>
    requires { greatest ≤ MOST }
    ensures found { IfSome result (λ n. (n ≤ greatest) × (bytes.now ≡ decimal n)) }
    ensures none { IfNone result ((n : ℕ) → n ≤ greatest → bytes.now ≡ decimal n → ⊥) }
{
    if !has_no_leading_zero(bytes) {
        return None;
    }
    let mut value = 0;
    let mut rest = bytes;
    'digits: while let Some((digit, after)) = rest.split_first() {
        if !digit.is_ascii_digit() {
            return None;
        }
        value = 10 * value + u128::from(*digit - b'0');
        if value > u128::from(greatest) {
            return None;
        }
        rest = after;
    }
    Some(value as u64)
}

/// A space and a number that is at most the greatest, and what follows it.
pub fn number(text: &[u8], greatest: u64) -> Option<(u64, &[u8])>
    requires { greatest ≤ MOST }
    ensures found { IfSome result (λ p. (p.0 ≤ greatest) × (text.now ≡ part p.0 ++ p.1.now)
        × Ends 32 p.1.now) }
    ensures none { IfNone result ((n : ℕ) (rest : List ℕ) → n ≤ greatest → Ends 32 rest → text.now
        ≡ part n ++ rest → ⊥) }
{
    let (digits, rest) = next_part(text)?;
    Some((number_of(digits, greatest)?, rest))
}

/// A space and a number that is at most the greatest, and nothing after it.
pub fn last_number(text: &[u8], greatest: u64) -> Option<u64>
    requires { greatest ≤ MOST }
    ensures found { IfSome result (λ n. (n ≤ greatest) × (text.now ≡ part n)) }
    ensures none { IfNone result ((n : ℕ) → n ≤ greatest → text.now ≡ part n → ⊥) }
{
    let (value, rest) = number(text, greatest)?;
    if !rest.is_empty() {
        return None;
    }
    Some(value)
}

// The number of a line that has a word before it.
fn number_line(word: &[u8], greatest: u64, line: &[u8]) -> Option<u64>
    requires { greatest ≤ MOST }
    ensures found { IfSome result (λ n. SaysNumber word.now greatest n line.now) }
    ensures none { IfNone result ((n : ℕ) → SaysNumber word.now greatest n line.now → ⊥) }
{
    last_number(behind(word, line)?, greatest)
}

/// The number of the next line, which has a word before it, and what follows the line. Above the greatest it
/// is no number of the line; above the most it is out of range.
pub fn take_number<'a>(
    word: &[u8],
    greatest: u64,
    most: u64,
    text: &'a [u8],
) -> Result<(u64, &'a [u8]), StateFault>
    requires { greatest ≤ MOST }
    ensures found { IfOk result (λ p. TakesNumber word.now greatest most text.now p.0 p.1.now) }
    ensures wrong { IfErr result
        (λ fault. RefusesNumber word.now greatest most text.now fault) }
{
    let (line, rest) = next_line(text)?;
    let Some(number) = number_line(word, greatest, line) else {
        return Err(StateFault::BadLine);
    };
    if number > most {
        return Err(StateFault::OutOfRange);
    }
    Ok((number, rest))
}
