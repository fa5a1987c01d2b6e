// A duration with a fraction, and what to write instead.

ghost use Rattle.std.specs.Prelude.{◌≡◌, ◌<◌, ◌++◌, OnOk};
ghost use Rattle.il_syntax.specs.Text.{byte_at, is_literal_byte, run_end};
ghost use Rattle.reasons_tokens.specs.Fractions.{is_letter_at, is_short, is_long, begins_fraction, has_fraction, fraction_line, literal_lines};

use std::alloc::AllocError;

// The byte at a place, and 0 after the text.
fn byte_at(text: &[u8], at: usize) -> u8
    ensures { result ≡ byte_at text.now at }
{
    if at < text.len() { text[at] } else { 0 }
}

// A letter at a place, in upper or lower case.
fn is_letter_at(text: &[u8], at: usize, letter: u8) -> bool
    ensures { result ≡ is_letter_at text.now at letter }
{
    byte_at(text, at).to_ascii_uppercase() == letter
}

// `T#`
fn is_short(text: &[u8], at: usize) -> bool
    requires { at < 4294967296 }
    ensures { result ≡ is_short text.now at }
{
    is_letter_at(text, at, b'T') && byte_at(text, at + 1) == b'#'
}

// `TIME#`
fn is_long(text: &[u8], at: usize) -> bool
    requires { at < 4294967296 }
    ensures { result ≡ is_long text.now at }
{
    is_letter_at(text, at, b'T')
        && is_letter_at(text, at + 1, b'I')
        && is_letter_at(text, at + 2, b'M')
        && is_letter_at(text, at + 3, b'E')
        && byte_at(text, at + 4) == b'#'
}

// Whether this byte goes on with a literal.
fn is_literal_byte(byte: u8) -> bool
    ensures { result ≡ is_literal_byte byte }
{
    byte.is_ascii_alphanumeric() || byte == b'_' || byte == b'#'
}

// Where the run of literal bytes from a place on ends.
#[tactic(auto, unfolding(il_syntax::specs::Text::run_end))]
fn literal_end(text: &[u8], at: usize) -> usize
    ensures { result ≡ run_end is_literal_byte text.now at }
{
    let mut end = at;
    'run: while end < text.len() && is_literal_byte(text[end]) {
        end += 1;
    }
    end
}

// A `.` and a digit.
fn begins_fraction(text: &[u8], at: usize) -> bool
    ensures { result ≡ begins_fraction text.now at }
{
    if at < text.len() {
        text[at] == b'.' && byte_at(text, at + 1).is_ascii_digit()
    } else {
        false
    }
}

// Whether the literal at a place is a duration, and after it is a fraction.
fn has_fraction(text: &[u8], at: usize) -> bool
    requires { at < 4294967296 }
    ensures { result ≡ has_fraction text.now at }
{
    if is_short(text, at) || is_long(text, at) {
        begins_fraction(text, literal_end(text, at))
    } else {
        false
    }
}

#[tactic(auto, unfolding(crate::specs::Fractions::fraction_line))]
fn put_fraction(lines: &mut Vec<u8>) -> Result<(), AllocError>
    ensures { OnOk result (lines.new.items ≡ lines.old.items ++ fraction_line) }
{
    lines.extend_from_slice(b"a duration has whole parts: T#3s500ms, not T#3.5s\n")
}

/// Of the literal at a place that is not well formed (3).
pub fn put_literal(lines: &mut Vec<u8>, text: &[u8], offset: u32) -> Result<(), AllocError>
    ensures { OnOk result (lines.new.items ≡ lines.old.items
        ++ literal_lines text.now offset) }
{
    if has_fraction(text, offset as usize) {
        put_fraction(lines)
    } else {
        Ok(())
    }
}
