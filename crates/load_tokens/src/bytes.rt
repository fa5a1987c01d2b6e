// Bytes, and the runs that they make.

ghost use Rattle.std.specs.Prelude.{◌≡◌, ◌≤◌, length, bytes_eq};
ghost use Rattle.std.specs.Char.{is_ascii_alphanumeric};
ghost use Rattle.il_syntax.specs.Text.{byte_at, begins_word, is_word_byte, is_literal_byte, run_end, after_minus, upper_case};
ghost use Rattle.load_tokens.specs.Lanes.{AllPassBetween};
ghost use Rattle.load_tokens.specs.Pieces.{count_feeds};

use crate::lanes::{LANES, alphanumeric_run, feeds};

/// The byte at a place, and 0 after the text.
#[inline(always)]
pub(crate) fn byte_at(text: &[u8], at: usize) -> u8
    ensures { result ≡ byte_at text.now at }
{
    if at < text.len() { text[at] } else { 0 }
}

/// Whether a word or a typed literal begins with this byte.
#[inline(always)]
pub(crate) fn begins_word(byte: u8) -> bool
    ensures { result ≡ begins_word byte }
{
    byte.is_ascii_alphabetic() || byte == b'_'
}

/// Whether these bytes in upper case are those.
pub(crate) fn is_in_upper_case(bytes: &[u8], upper: &[u8]) -> bool
    ensures { result ≡ bytes_eq (upper_case bytes.now) upper.now }
{
    if bytes.len() != upper.len() {
        return false;
    }
    let mut at = 0;
    'bytes: while at < bytes.len() {
        if bytes[at].to_ascii_uppercase() != upper[at] {
            return false;
        }
        at += 1;
    }
    true
}

// Whether this byte goes on with a word.
#[inline(always)]
fn is_word_byte(byte: u8) -> bool
    ensures { result ≡ is_word_byte byte }
{
    byte.is_ascii_alphanumeric() || byte == b'_'
}

// Whether this byte goes on with a number or a typed literal.
#[inline(always)]
fn is_literal_byte(byte: u8) -> bool
    ensures { result ≡ is_literal_byte byte }
{
    is_word_byte(byte) || byte == b'#'
}

/// A place up to which letters and digits alone are from `at` on, seen at once.
#[inline(always)]
pub(crate) fn seen_end(text: &[u8], at: usize) -> usize
    requires { at ≤ length text.now }
    ensures within { at ≤ result × result ≤ length text.now }
    ensures pass { AllPassBetween is_ascii_alphanumeric text.now at result }
{
    if text.len() - at >= LANES {
        at + alphanumeric_run(text, at)
    } else {
        at
    }
}

/// Where the run of word bytes from `at` on ends. Letters and digits alone are up to `seen`.
#[inline(always)]
#[tactic(auto, unfolding(il_syntax::specs::Text::run_end))]
pub(crate) fn word_end(text: &[u8], at: usize, seen: usize) -> usize
    requires seen { at ≤ seen × seen ≤ length text.now }
    requires pass { AllPassBetween is_ascii_alphanumeric text.now at seen }
    ensures from { at ≤ result }
    ensures within { result ≤ length text.now }
    ensures longest { result ≡ run_end is_word_byte text.now at }
{
    let mut end = seen;
    'run: while end < text.len() && is_word_byte(text[end]) {
        end += 1;
    }
    end
}

/// Where the run of literal bytes from `at` on ends.
#[tactic(auto, unfolding(il_syntax::specs::Text::run_end))]
pub(crate) fn literal_end(text: &[u8], at: usize) -> usize
    requires { at ≤ length text.now }
    ensures from { at ≤ result }
    ensures within { result ≤ length text.now }
    ensures longest { result ≡ run_end is_literal_byte text.now at }
{
    let mut end = at;
    'run: while end < text.len() && is_literal_byte(text[end]) {
        end += 1;
    }
    end
}

/// The place after a minus, if one is at `at`.
#[inline(always)]
pub(crate) fn after_minus(text: &[u8], at: usize) -> usize
    requires { at ≤ length text.now }
    ensures from { at ≤ result }
    ensures within { result ≤ length text.now }
    ensures place { result ≡ after_minus text.now at }
{
    if at < text.len() && text[at] == b'-' {
        at + 1
    } else {
        at
    }
}

/// How many line feeds there are among these bytes.
pub(crate) fn line_feeds(bytes: &[u8]) -> usize
    ensures within { result ≤ length bytes.now }
    ensures count { result ≡ count_feeds bytes.now }
{
    let mut count: usize = 0;
    let mut at = 0;
    'sixteens: while bytes.len() - at >= LANES {
        count += feeds(bytes, at);
        at += LANES;
    }
    'rest: while at < bytes.len() {
        count += usize::from(bytes[at] == b'\n');
        at += 1;
    }
    count
}
