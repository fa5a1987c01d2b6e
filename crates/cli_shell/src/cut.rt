// A trace that was cut off.

ghost use Rattle.std.specs.Prelude.{◌≡◌, ◌≤◌, ◌++◌, length, OnOk};
ghost use Rattle.cli_shell.specs.Cuts.{completed, end_line, event_count, have_end, is_end, is_event, last_line, whole_length};

use itoa::Buffer;
use memchr::memrchr;
use std::alloc::AllocError;

// How many bytes the whole lines of a text take.
fn whole_length(text: &[u8]) -> usize
    ensures is { result ≡ whole_length text.now }
    ensures within { result ≤ length text.now }
{
    match memrchr(b'\n', text) {
        Some(place) => place + 1,
        None => 0,
    }
}

// The last one of whole lines.
fn last_line(lines: &[u8]) -> &[u8]
    ensures { result.now ≡ last_line lines.now }
{
    let front = &lines[..lines.len().saturating_sub(1)];
    &lines[whole_length(front)..]
}

// Whether no end is put after whole lines.
fn have_end(lines: &[u8]) -> bool
    ensures { result ≡ have_end lines.now }
{
    lines.is_empty() || is_end(last_line(lines))
}

// Whether a line is the last of a trace, by its first two bytes.
fn is_end(line: &[u8]) -> bool
    ensures { result ≡ is_end line.now }
{
    matches!(line, [b'E', b' ', ..])
}

// Whether a line is that of an event: one letter and a space.
fn is_event(line: &[u8]) -> bool
    ensures { result ≡ is_event line.now }
{
    matches!(line, [_, b' ', ..])
}

// How many lines of events there are after the first line.
fn event_count(lines: &[u8]) -> usize
    ensures { result ≡ event_count lines.now }
{
    lines
        .split(|byte| *byte == b'\n')
        .skip(1)
        .filter(|line| is_event(line))
        .count()
}

/// Takes a trace up to its last whole line, and puts its end after it where it has none.
pub(crate) fn complete(text: &mut Vec<u8>) -> Result<(), AllocError>
    ensures { OnOk result (text.new.items ≡ completed text.old.items) }
{
    let length = whole_length(text);
    text.truncate(length);
    if have_end(text) {
        return Ok(());
    }
    let events = event_count(text);
    put_end(text, events)
}

// The line at the end of a trace of so many lines of events.
fn put_end(text: &mut Vec<u8>, events: usize) -> Result<(), AllocError>
    ensures { OnOk result (text.new.items ≡ text.old.items ++ end_line events) }
{
    let mut digits = Buffer::new();
    text.extend_from_slice(b"E ")?;
    text.extend_from_slice(digits.format(events).as_bytes())?;
    text.extend_from_slice(b"\n")
}
