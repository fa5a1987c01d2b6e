// Bytes as they are shown.

ghost use Rattle.std.specs.Prelude.{◌≡◌, map, OnOk};
ghost use Rattle.base_texts.specs.Puts.{Puts};
ghost use Rattle.base_shown.specs.Shown.{shown};

use std::alloc::AllocError;

/// A byte as it is shown: a blank for a tab and a carriage return, `?` for another that can't be printed.
pub fn shown(byte: u8) -> u8
    ensures { result ≡ shown byte }
{
    match byte {
        b' '..=b'~' => byte,
        b'\t' | b'\r' => b' ',
        _ => b'?',
    }
}

/// Adds bytes as they are shown.
pub fn put_shown(text: &mut String, bytes: &[u8]) -> Result<(), AllocError>
    ensures { OnOk result (Puts text.old text.new (map shown bytes.now)) }
{
    'bytes: for byte in bytes {
        text.push(char::from(shown(*byte)))?;
    }
    Ok(())
}
