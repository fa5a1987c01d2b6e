// Bytes that are written with escapes.

ghost use Rattle.std.specs.Prelude.{◌<◌, IfSome};

use std::io;

/// Adds the bytes that a text spells, in which `\n`, `\r`, `\t` and `\xHH` are one byte each.
pub fn add_bytes(to: &mut Vec<u8>, text: &str) -> io::Result<()> {
    let (plain, escapes) = text.split_once('\\').unwrap_or((text, ""));
    to.extend_from_slice(plain.as_bytes())?;
    if plain.len() == text.len() {
        return Ok(());
    }
    for piece in escapes.split('\\') {
        let (byte, rest) = escaped(piece.as_bytes()).ok_or(io::ErrorKind::InvalidData)?;
        to.push(byte)?;
        to.extend_from_slice(rest)?;
    }
    Ok(())
}

// The byte of an escape, after its `\`, and what follows.
fn escaped(text: &[u8]) -> Option<(u8, &[u8])> {
    match text {
        [b'n', rest @ ..] => Some((b'\n', rest)),
        [b'r', rest @ ..] => Some((b'\r', rest)),
        [b't', rest @ ..] => Some((b'\t', rest)),
        [b'x', high, low, rest @ ..] => Some((digit(*high)? * 16 + digit(*low)?, rest)),
        _ => None,
    }
}

// The value of a hexadecimal digit.
fn digit(byte: u8) -> Option<u8>
    ensures { IfSome result (λ value. value < 16) }
{
    match byte {
        b'0'..=b'9' => Some(byte - b'0'),
        b'a'..=b'f' => Some(byte - b'a' + 10),
        _ => None,
    }
}
