// A line around a place, and a mark below it.

ghost use Rattle.std.specs.Prelude.{◌≡◌, ◌≤◌, ◌++◌, length, map, drop, replicate, codes, OnOk};
ghost use Rattle.std.specs.List.{prefix_len};
ghost use Rattle.il_syntax.specs.Text.{is_literal_byte};
ghost use Rattle.base_shown.specs.Shown.{shown};
ghost use Rattle.cli_messages.specs.Places.{left_out, around, marked, mark};

use crate::lines::Line;
use crate::place::{put_quoted, put_shown};
use std::alloc::AllocError;

// The most bytes of a line before a place that are all shown, and how many are shown where there are more.
const MOST_BEFORE: usize = 120;

const SHOWN_BEFORE: usize = 60;

// The most bytes that are marked.
const MOST_MARKED: usize = 32;

/// The text of a line around a place.
pub(crate) fn put_line(to: &mut Vec<u8>, line: Line<'_>) -> Result<(), AllocError>
    ensures { OnOk result (to.new.items
        ≡ to.old.items ++ (around line.entry.front.now line.entry.back.now ++ codes "\n")) }
{
    put_shown(to, &line.front[left_out(line.front.len())..])?;
    put_quoted(to, line.back)?;
    to.extend_from_slice(b"\n")
}

/// The mark below it.
pub(crate) fn put_mark(to: &mut Vec<u8>, line: Line<'_>) -> Result<(), AllocError>
    ensures { OnOk result (to.new.items
        ≡ to.old.items ++ (mark line.entry.front.now line.entry.back.now ++ codes "\n")) }
{
    let before = line.front.len();
    put_times(to, before - left_out(before), b' ')?;
    put_times(to, marked(line.back), b'^')?;
    to.extend_from_slice(b"\n")
}

// How many bytes of a line are left out before a place.
fn left_out(front: usize) -> usize
    ensures is { result ≡ left_out front }
    ensures within { result ≤ front }
{
    if front <= MOST_BEFORE {
        0
    } else {
        front - SHOWN_BEFORE
    }
}

/// How many bytes are marked: those of the word or the number at the front, but 1 at least and 32 at most.
pub fn marked(back: &[u8]) -> usize
    ensures { result ≡ marked back.now }
{
    word_length(back).min(MOST_MARKED).max(1)
}

// How many bytes of a word or a number are at the front.
fn word_length(bytes: &[u8]) -> usize
    ensures { result ≡ prefix_len is_literal_byte bytes.now }
{
    let mut length = 0;
    'word: while length < bytes.len() && is_literal_byte(bytes[length]) {
        length += 1;
    }
    length
}

// A byte of a word or a number.
fn is_literal_byte(byte: u8) -> bool
    ensures { result ≡ is_literal_byte byte }
{
    byte.is_ascii_alphanumeric() || byte == b'_' || byte == b'#'
}

// A byte, so many times.
fn put_times(to: &mut Vec<u8>, times: usize, byte: u8) -> Result<(), AllocError>
    ensures { OnOk result (to.new.items ≡ to.old.items ++ replicate times byte) }
{
    'times: for _ in 0..times {
        to.push(byte)?;
    }
    Ok(())
}
