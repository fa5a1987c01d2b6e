// Durations (IEC 61131-3:2003, 2.2.3.1).

ghost use Rattle.std.specs.Prelude.{◌≡◌, ℕ, ℤ, pos, ◌<◌, ◌≤◌, min, length, slice_index, true, Some, option_map, IfOk, IfErr};
ghost use Rattle.std.specs.List.{prefix_len};
ghost use Rattle.std.specs.Char.{is_ascii_digit, is_ascii_alphabetic};
ghost use Rattle.std.specs.Str.Parse.{digits_value};
ghost use Rattle.il_syntax.specs.declared.tree.Elementary.TheVariants.{Time};
ghost use Rattle.il_syntax.specs.ElementaryTypes.{IsValueOf};
ghost use Rattle.il_syntax.specs.Text.{duration_value};
ghost use Rattle.load_tokens.specs.LexicalErrors.{form_or_size};
ghost use Rattle.load_tokens.specs.Durations.{IsPartOf};

use crate::bytes::is_in_upper_case;
use crate::error::LexicalError;

// The longest duration, in milliseconds (own rule).
const LONGEST_DURATION: u64 = 2_147_483_647;

// What a unit adds to a duration, and the bytes after it.
#[derive(Clone, Copy)]
struct Part<'a> {
    milliseconds: u64,
    rest: &'a [u8],
}

// How many digits are at the front.
fn digits_len(bytes: &[u8]) -> usize
    ensures within { result ≤ length bytes.now }
    ensures longest { result ≡ prefix_len is_ascii_digit bytes.now }
{
    let mut len = 0;
    'digits: while len < bytes.len() && bytes[len].is_ascii_digit() {
        len += 1;
    }
    len
}

// How many letters are at the front.
fn letters_len(bytes: &[u8]) -> usize
    ensures within { result ≤ length bytes.now }
    ensures longest { result ≡ prefix_len is_ascii_alphabetic bytes.now }
{
    let mut len = 0;
    'letters: while len < bytes.len() && bytes[len].is_ascii_alphabetic() {
        len += 1;
    }
    len
}

// The value of decimal digits; for all that is too large, `LONGEST_DURATION` and 1.
fn capped_count(digits: &[u8]) -> u64
    requires { (k : ℕ) → k < length digits.now → is_ascii_digit (slice_index digits.now k) ≡ true }
    ensures { result ≡ min (digits_value 10 digits.now) 2147483648 }
{
    let mut count = 0;
    for digit in digits {
        let units = *digit - b'0';
        count = (count * 10 + u64::from(units)).min(LONGEST_DURATION + 1);
    }
    count
}

// The part of this unit, which is given in upper case, at the front: nothing, where another unit is there.
fn part_of<'a>(bytes: &'a [u8], unit: &[u8], milliseconds: u64) -> Part<'a>
    requires { milliseconds ≤ 86400000 }
    ensures { IsPartOf bytes.now unit.now milliseconds result }
{
    let digits = digits_len(bytes);
    let behind = &bytes[digits..];
    let letters = letters_len(behind);
    if digits > 0 && is_in_upper_case(&behind[..letters], unit) {
        Part {
            milliseconds: capped_count(&bytes[..digits]) * milliseconds,
            rest: &behind[letters..],
        }
    } else {
        Part {
            milliseconds: 0,
            rest: bytes,
        }
    }
}

/// The milliseconds of a duration.
pub(crate) fn duration_of(bytes: &[u8]) -> Result<i64, LexicalError>
    ensures found { IfOk result (λ v. option_map pos (duration_value bytes.now) ≡ Some v) }
    ensures small { IfOk result (λ v. IsValueOf Time v) }
    ensures refused { IfErr result (λ _. (v : ℤ) → option_map pos (duration_value bytes.now)
        ≡ Some v → IsValueOf Time v → ⊥) }
    ensures error { IfErr result (λ f. f ≡ form_or_size (duration_value bytes.now)) }
{
    if bytes.is_empty() {
        return Err(LexicalError::BadNumber);
    }
    let days = part_of(bytes, b"D", 86_400_000);
    let hours = part_of(days.rest, b"H", 3_600_000);
    let minutes = part_of(hours.rest, b"M", 60_000);
    let seconds = part_of(minutes.rest, b"S", 1_000);
    let rest = part_of(seconds.rest, b"MS", 1);
    if !rest.rest.is_empty() {
        return Err(LexicalError::BadNumber);
    }
    let whole = days.milliseconds
        + hours.milliseconds
        + minutes.milliseconds
        + seconds.milliseconds
        + rest.milliseconds;
    if whole <= LONGEST_DURATION {
        Ok(whole as i64)
    } else {
        Err(LexicalError::NumberTooLarge)
    }
}
