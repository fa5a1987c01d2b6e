// The text of an instruction, as `ranges --text` and `scan` show it.

ghost use Rattle.std.specs.Prelude.{◌≡◌, ◌≤◌, length, option_map, OnOk};
ghost use Rattle.std.specs.List.{prefix_len};
ghost use Rattle.base_texts.specs.Puts.{Puts};
ghost use Rattle.show_names.specs.Sources.{is_within_line, shown_front, source_text, told_source};

use base_shown::shown::put_shown;
use std::alloc::AllocError;

// The most bytes of a line that are shown.
const MOST_BYTES: usize = 60;

/// `: TEXT`, from an offset of a configuration's text on, where that is to be shown.
pub fn put_told(text: &mut String, source: Option<&[u8]>, offset: usize) -> Result<(), AllocError>
    ensures { OnOk result (Puts text.old text.new
        (told_source (option_map (λ s. s.now) source.entry) offset)) }
{
    match source {
        Some(source) => {
            text.push_str(": ")?;
            put_source(text, source, offset)
        }
        None => Ok(()),
    }
}

/// The text from an offset to the end of its line, at most 60 bytes.
pub fn put_source(text: &mut String, source: &[u8], offset: usize) -> Result<(), AllocError>
    ensures { OnOk result (Puts text.old text.new (source_text source.now offset)) }
{
    let (_, rest) = source.split_at(offset.min(source.len()));
    put_first(text, rest)
}

// The front of a text, up to the end of its first line.
fn put_first(text: &mut String, bytes: &[u8]) -> Result<(), AllocError>
    ensures { OnOk result (Puts text.old text.new (shown_front bytes.now)) }
{
    let (front, _) = bytes.split_at(line_length(bytes).min(MOST_BYTES));
    put_shown(text, front)
}

// How many bytes the first line has.
fn line_length(bytes: &[u8]) -> usize
    ensures is { result ≡ prefix_len is_within_line bytes.now }
    ensures within { result ≤ length bytes.now }
{
    let mut length = 0;
    'line: while length < bytes.len() && bytes[length] != b'\n' {
        length += 1;
    }
    length
}
