// Numbers (IEC 61131-3:2003, 2.2.1).

ghost use Rattle.std.specs.Prelude.{◌≡◌, ℕ, ℤ, ◌<◌, ◌≤◌, min, length, nat_abs, Some, option_map, IfOk, IfErr};
ghost use Rattle.il_syntax.specs.Text.{based_value, magnitude, number_value};
ghost use Rattle.load_tokens.specs.LexicalErrors.{form_or_size};

use crate::bytes::byte_at;
use crate::error::LexicalError;

// The first number that is too large: 2 ^ 32.
const TOO_LARGE: u64 = 4_294_967_296;

// The value of digits of a base, with single underscores between them; for all that is too large, `TOO_LARGE`.
fn capped_value(digits: &[u8], base: u32) -> Option<u64>
    requires low { 2 ≤ base }
    requires high { base ≤ 16 }
    ensures { result ≡ option_map (λ n. min n 4294967296) (based_value base digits.now) }
{
    let mut inside = false;
    let mut value = 0;
    for digit in digits {
        match char::from(*digit).to_digit(base) {
            Some(units) => {
                value = (value * u64::from(base) + u64::from(units)).min(TOO_LARGE);
                inside = true;
            }
            None => {
                if *digit != b'_' {
                    return None;
                }
                if !inside {
                    return None;
                }
                inside = false;
            }
        }
    }
    if inside { Some(value) } else { None }
}

// The value of digits of a base.
fn based_value(digits: &[u8], base: u32) -> Result<u32, LexicalError>
    requires low { 2 ≤ base }
    requires high { base ≤ 16 }
    ensures found { IfOk result (λ n. based_value base digits.now ≡ Some n) }
    ensures refused { IfErr result (λ _. (n : ℕ) → based_value base digits.now ≡ Some n
        → 4294967295 < n) }
    ensures error { IfErr result (λ f. f ≡ form_or_size (based_value base digits.now)) }
{
    let value = capped_value(digits, base).ok_or(LexicalError::BadNumber)?;
    if value < TOO_LARGE {
        Ok(value as u32)
    } else {
        Err(LexicalError::NumberTooLarge)
    }
}

// The value of a number without a sign.
fn magnitude(bytes: &[u8]) -> Result<u32, LexicalError>
    ensures found { IfOk result (λ n. magnitude bytes.now ≡ Some n) }
    ensures refused { IfErr result (λ _. (n : ℕ) → magnitude bytes.now ≡ Some n → 4294967295 < n) }
    ensures error { IfErr result (λ f. f ≡ form_or_size (magnitude bytes.now)) }
{
    if bytes.starts_with(b"2#") {
        based_value(&bytes[2..], 2)
    } else if bytes.starts_with(b"8#") {
        based_value(&bytes[2..], 8)
    } else if bytes.starts_with(b"16#") {
        based_value(&bytes[3..], 16)
    } else {
        based_value(bytes, 10)
    }
}

/// The value of a number, from -4294967295 to 4294967295.
pub(crate) fn number_of(bytes: &[u8]) -> Result<i64, LexicalError>
    ensures found { IfOk result (λ v. number_value bytes.now ≡ Some v) }
    ensures small { IfOk result (λ v. nat_abs v ≤ 4294967295) }
    ensures refused { IfErr result (λ _. (v : ℤ) → number_value bytes.now ≡ Some v
        → 4294967295 < nat_abs v) }
    ensures error { IfErr result (λ f. f ≡ form_or_size (number_value bytes.now)) }
{
    if byte_at(bytes, 0) == b'-' {
        let value = based_value(&bytes[1..], 10)?;
        return Ok(-i64::from(value));
    }
    let value = magnitude(bytes)?;
    Ok(i64::from(value))
}
