// What a state says before its variables.

ghost use Rattle.std.specs.Prelude.{◌≡◌, ◌≤◌, ◌<◌, ◌+◌, ◌*◌, ◌/◌, ◌%◌, ◌↔◌, IsTrue, length, IfOk, IfErr};
ghost use Rattle.group_state.specs.Text.{hex_digit, hex_text};
ghost use Rattle.group_state.specs.Parts.{calls_of};
ghost use Rattle.group_state.specs.Saying.{IsHexDigit, IsDigest, TakesConfiguration, RefusesConfiguration};
ghost use Rattle.group_state.specs.Heads.{TakesHead, RefusesHead};

use crate::calls::{Given, take_calls};
use crate::fault::{StateFault, Wrong};
use crate::fields::take_image;
use crate::lines::{behind, next_line};
use group_spec::{Image, MOST_CARS, SLOT_PLACES, Sizes};

// Whether a byte is a lower-case hexadecimal digit.
fn is_hex_digit(byte: u8) -> bool
    ensures { IsTrue result ↔ IsHexDigit byte }
{
    byte.is_ascii_digit() || (b'a'..=b'f').contains(&byte)
}

// Whether bytes are 64 such digits.
fn is_digest(digits: &[u8]) -> bool
    ensures { IsTrue result ↔ IsDigest digits.now }
{
    if digits.len() != 64 {
        return false;
    }
    'digits: for digit in digits {
        if !is_hex_digit(*digit) {
            return false;
        }
    }
    true
}

/// A lower-case hexadecimal digit.
pub fn hex_digit(number: u8) -> u8
    requires { number < 16 }
    ensures { result ≡ hex_digit number }
{
    if number < 10 {
        b'0' + number
    } else {
        b'a' - 10 + number
    }
}

// Whether two digits are those of a byte.
fn are_of_byte(byte: u8, first: u8, second: u8) -> bool
    ensures { IsTrue result ↔ ((first ≡ hex_digit (byte / 16))
        × (second ≡ hex_digit (byte % 16))) }
{
    first == hex_digit(byte / 16) && second == hex_digit(byte % 16)
}

// Whether digits are those of bytes.
fn are_digits_of(bytes: &[u8], digits: &[u8]) -> bool
    requires { length digits.now ≡ 2 * length bytes.now }
    ensures { IsTrue result ↔ (digits.now ≡ hex_text bytes.now) }
{
    'bytes: for at in 0..bytes.len() {
        if !are_of_byte(bytes[at], digits[2 * at], digits[2 * at + 1]) {
            return false;
        }
    }
    true
}

// What follows the line of the configuration, which has to have this digest.
fn take_configuration<'a>(digest: &[u8; 32], text: &'a [u8]) -> Result<&'a [u8], StateFault>
    ensures found { IfOk result (λ rest. TakesConfiguration digest.now text.now rest.now) }
    ensures wrong { IfErr result (λ fault. RefusesConfiguration digest.now text.now fault) }
{
    let (line, rest) = next_line(text)?;
    let Some(digits) = behind(b"CONFIGURATION ", line) else {
        return Err(StateFault::BadLine);
    };
    if !is_digest(digits) {
        return Err(StateFault::BadLine);
    }
    if !are_digits_of(digest, digits) {
        return Err(StateFault::OtherConfiguration);
    }
    Ok(rest)
}

/// What a state says before its variables.
#[derive(Drop)]
pub struct Head {
    pub image: Image,
    pub calls: Given,
}

/// The configuration, the image and the calls, and what follows their lines.
pub fn take_head<'a>(
    sizes: Sizes,
    digest: &[u8; 32],
    text: &'a [u8],
) -> Result<(Head, &'a [u8]), Wrong>
    requires cars { sizes.cars ≤ MOST_CARS }
    requires slots { sizes.slots ≤ SLOT_PLACES }
    ensures found { IfOk result (λ p. TakesHead sizes digest.now text.now p.0.image
        (calls_of p.0.calls) p.1.now) }
    ensures wrong { IfErr result (λ wrong. RefusesHead sizes digest.now text.now wrong) }
{
    let rest = match take_configuration(digest, text) {
        Ok(rest) => rest,
        Err(fault) => return Err(Wrong { fault, line: 2 }),
    };
    let (image, rest) = take_image(sizes, rest)?;
    let (calls, rest) = take_calls(sizes, rest)?;
    Ok((Head { image, calls }, rest))
}
