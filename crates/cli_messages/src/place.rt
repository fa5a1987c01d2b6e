// The place of a fault, as it is shown below a refusal.

ghost use Rattle.std.specs.Prelude.{◌≡◌, ◌++◌, ℕ, List, map, codes, IfOk, OnOk};
ghost use Rattle.base_shown.specs.Shown.{shown};
ghost use Rattle.cli_messages.specs.Places.{IsTitle, IsMore, IsShownBelow, IsTextShownBelow, more_text, place_text, column_text, shown_name, name_behind, name_byte, quoted};

use crate::lines::{line_around, line_at};
use crate::mark::{put_line, put_mark};
use base_shown::shown::shown;
use cli_explain::title;
use il_syntax::tree::Place;
use itoa::Buffer;
use std::alloc::{AllocError, Global};

// The most bytes of a line that are shown.
const MOST_BYTES: usize = 200;

/// What is shown below the refusal of a text with a number at a place: the name of the file, the line and the column, both counted from 1, and what
/// the number means; then the text of the line, with a mark below what is there, and the lines that are reported of it.
pub fn text_below(
    alloc: Global,
    name: &str,
    text: &[u8],
    number: u16,
    place: Place,
    reason: &[u8],
) -> Result<Vec<u8>, AllocError>
    ensures { IfOk result (λ below. IsTextShownBelow name.now text.now number place reason.now
        below.items) }
{
    let line = line_around(text, place.offset as usize);
    let mut below = Vec::new(alloc);
    put_column(&mut below, name, place.line, line.front.len() + 1)?;
    put_title(&mut below, number)?;
    put_line(&mut below, line)?;
    put_mark(&mut below, line)?;
    below.extend_from_slice(reason)?;
    put_more(&mut below, number)?;
    Ok(below)
}

/// What is shown below the refusal of another file with a number at a line, counted from 1: the name of the file, the line, and what the number
/// means; then the text of the line.
pub fn below(
    alloc: Global,
    name: &str,
    text: &[u8],
    number: u16,
    line: u32,
) -> Result<Vec<u8>, AllocError>
    ensures { IfOk result (λ below. IsShownBelow name.now text.now number line below.items) }
{
    let source = line_at(text, line.saturating_sub(1)).unwrap_or(b"");
    let mut below = Vec::new(alloc);
    put_place(&mut below, name, line)?;
    put_title(&mut below, number)?;
    put_source(&mut below, source)?;
    put_more(&mut below, number)?;
    Ok(below)
}

// `NAME:LINE: `.
fn put_place(to: &mut Vec<u8>, name: &str, line: u32) -> Result<(), AllocError>
    ensures { OnOk result (to.new.items ≡ to.old.items ++ place_text name.now line) }
{
    let mut digits = Buffer::new();
    put_name(to, name)?;
    to.extend_from_slice(b":")?;
    to.extend_from_slice(digits.format(line).as_bytes())?;
    to.extend_from_slice(b": ")
}

// `NAME:LINE:COLUMN: `.
fn put_column(to: &mut Vec<u8>, name: &str, line: u32, column: usize) -> Result<(), AllocError>
    ensures { OnOk result (to.new.items ≡ to.old.items ++ column_text name.now line column) }
{
    let mut lines = Buffer::new();
    let mut columns = Buffer::new();
    put_name(to, name)?;
    to.extend_from_slice(b":")?;
    to.extend_from_slice(lines.format(line).as_bytes())?;
    to.extend_from_slice(b":")?;
    to.extend_from_slice(columns.format(column).as_bytes())?;
    to.extend_from_slice(b": ")
}

/// The name of a file, whole and in one line: with `?` for each control character.
pub(crate) fn put_name(to: &mut Vec<u8>, name: &str) -> Result<(), AllocError>
    ensures { OnOk result (to.new.items ≡ to.old.items ++ shown_name name.now) }
{
    put_name_bytes(to, name.as_bytes())
}

// The bytes of a name.
fn put_name_bytes(to: &mut Vec<u8>, bytes: &[u8]) -> Result<(), AllocError>
    ensures { OnOk result (to.new.items ≡ to.old.items ++ name_behind 0 bytes.now) }
{
    let mut before = 0;
    'bytes: for byte in bytes {
        to.push(name_byte(before, *byte))?;
        before = *byte;
    }
    Ok(())
}

// A byte of a name, by the one before it.
fn name_byte(before: u8, byte: u8) -> u8
    ensures { result ≡ name_byte before byte }
{
    if byte < 32 || byte == 127 || (before == 194 && byte < 160) {
        b'?'
    } else {
        byte
    }
}

// What the number means.
fn put_title(to: &mut Vec<u8>, number: u16) -> Result<(), AllocError>
    ensures { OnOk result ((title : List ℕ) × IsTitle number title
        × (to.new.items ≡ to.old.items ++ (title ++ codes "\n"))) }
{
    to.extend_from_slice(title(number).unwrap_or("").as_bytes())?;
    to.extend_from_slice(b"\n")?;
    Ok(())
}

// The text of a line.
fn put_source(to: &mut Vec<u8>, source: &[u8]) -> Result<(), AllocError>
    ensures { OnOk result (to.new.items ≡ to.old.items ++ (quoted source.now ++ codes "\n")) }
{
    put_quoted(to, source)?;
    to.extend_from_slice(b"\n")
}

/// The first bytes of a line or a word.
pub(crate) fn put_quoted(to: &mut Vec<u8>, line: &[u8]) -> Result<(), AllocError>
    ensures { OnOk result (to.new.items ≡ to.old.items ++ quoted line.now) }
{
    put_shown(to, &line[..line.len().min(MOST_BYTES)])?;
    Ok(())
}

/// Bytes as they are shown.
pub(crate) fn put_shown(to: &mut Vec<u8>, bytes: &[u8]) -> Result<(), AllocError>
    ensures { OnOk result (to.new.items ≡ to.old.items ++ map shown bytes.now) }
{
    'bytes: for byte in bytes {
        to.push(shown(*byte))?;
    }
    Ok(())
}

// Who says more of a number that has a meaning.
fn put_more(to: &mut Vec<u8>, number: u16) -> Result<(), AllocError>
    ensures { OnOk result ((more : List ℕ) × IsMore number more
        × (to.new.items ≡ to.old.items ++ more)) }
{
    match title(number) {
        Some(_) => {
            put_sayer(to, number)?;
            Ok(())
        }
        None => Ok(()),
    }
}

// Who says more of a number.
fn put_sayer(to: &mut Vec<u8>, number: u16) -> Result<(), AllocError>
    ensures { OnOk result (to.new.items ≡ to.old.items ++ more_text number) }
{
    let mut digits = Buffer::new();
    to.extend_from_slice(b"`liftplc explain ")?;
    to.extend_from_slice(digits.format(number).as_bytes())?;
    to.extend_from_slice(b"` says more\n")?;
    Ok(())
}
