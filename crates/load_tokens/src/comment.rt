// Comments (IEC 61131-3:2003, 2.1.5).

ghost use Rattle.std.specs.Prelude.{◌≡◌, ℕ, ◌+◌, ◌<◌, ◌≤◌, length, slice_range, false, IsTrue, IsFalse, IfOk, IfErr, IfSome, IfNone, not, ◌&&◌};
ghost use Rattle.il_syntax.specs.Text.{opens_comment, closes_comment, is_text_byte, IsComment};
ghost use Rattle.load_tokens.specs.Lanes.{AllPassBetween, is_plain};
ghost use Rattle.load_tokens.specs.Pieces.{count_feeds};
ghost use Rattle.load_tokens.specs.LexicalErrors.{IsInsideEnd, IsCommentError};

use crate::bytes::{byte_at, line_feeds};
use crate::error::{LexicalError, Misread};
use crate::lanes::{COMMENT_LANES, plain_run};

/// Whether `(*` is at a place.
#[inline(always)]
pub(crate) fn opens_comment(text: &[u8], at: usize) -> bool
    requires { at ≤ length text.now }
    ensures { result ≡ opens_comment text.now at }
{
    byte_at(text, at) == b'(' && byte_at(text, at + 1) == b'*'
}

// Whether `*)` is at a place.
#[inline(always)]
fn closes_comment(text: &[u8], at: usize) -> bool
    requires { at ≤ length text.now }
    ensures { result ≡ closes_comment text.now at }
{
    byte_at(text, at) == b'*' && byte_at(text, at + 1) == b')'
}

// Whether a byte may be in a comment, and neither `(*` nor `*)` begins with it.
#[inline(always)]
fn is_inside(text: &[u8], at: usize) -> bool
    requires { at < length text.now }
    ensures { result ≡ (is_text_byte text.now at &&
        (not (opens_comment text.now at) && not (closes_comment text.now at))) }
{
    let byte = text[at];
    if byte > b'*' {
        return byte <= b'~';
    }
    if byte >= b' ' && byte < b'(' {
        return true;
    }
    match byte {
        b'(' => byte_at(text, at + 1) != b'*',
        b'*' => byte_at(text, at + 1) != b')',
        b'\r' => byte_at(text, at + 1) == b'\n',
        b')' | b'\t' | b'\n' => true,
        _ => false,
    }
}

// The place of the first `*)` from `from` on.
fn closing_from(text: &[u8], from: usize) -> Option<usize>
    ensures within { IfSome result (λ to. from ≤ to × to + 2 ≤ length text.now) }
    ensures found { IfSome result (λ to. IsTrue (closes_comment text.now to)) }
    ensures first { IfSome result (λ to. (k : ℕ) → from ≤ k → k < to
        → IsFalse (closes_comment text.now k)) }
    ensures none { IfNone result ((k : ℕ) → from ≤ k → IsFalse (closes_comment text.now k)) }
{
    let mut at = from;
    'closing: while at < text.len() {
        if closes_comment(text, at) {
            return Some(at);
        }
        at += 1;
    }
    None
}

// A place from `from` on up to which bytes are that may be anywhere in a comment.
fn plain_end(text: &[u8], from: usize) -> usize
    requires { from ≤ length text.now }
    ensures within { from ≤ result × result ≤ length text.now }
    ensures plain { AllPassBetween is_plain text.now from result }
{
    let mut at = from;
    'plain: while text.len() - at >= COMMENT_LANES {
        let run = plain_run(text, at);
        at += run;
        if run < COMMENT_LANES {
            return at;
        }
    }
    at
}

// The place from `from` on at which something else is than the inside of a comment. Plain bytes are up to `plain`.
fn inside_end(text: &[u8], from: usize, plain: usize) -> usize
    requires within { from ≤ plain × plain ≤ length text.now }
    requires plain { AllPassBetween is_plain text.now from plain }
    ensures within { from ≤ result × result ≤ length text.now }
    ensures inside { (k : ℕ) → from ≤ k → k < result
        → IsTrue (is_text_byte text.now k &&
        (not (opens_comment text.now k) && not (closes_comment text.now k))) }
    ensures stops { result < length text.now
        → IsFalse (is_text_byte text.now result &&
        (not (opens_comment text.now result) && not (closes_comment text.now result))) }
{
    let mut at = plain;
    'inside: while at < text.len() && is_inside(text, at) {
        at += 1;
    }
    at
}

// What is wrong with a comment that opens at `at`, where something else than its inside or its end is at `stop`.
fn misread_at(text: &[u8], at: usize, stop: usize) -> Misread
    requires within { at ≤ stop × stop ≤ length text.now }
    requires stop { IsInsideEnd text.now (at + 2) stop }
    requires open { IsFalse (closes_comment text.now stop) }
    ensures place { at ≤ result.at × result.at ≤ length text.now }
    ensures error { IsCommentError text.now at result.error result.at }
{
    if closing_from(text, stop).is_none() {
        return Misread {
            error: LexicalError::OpenComment,
            at,
        };
    }
    let error = if opens_comment(text, stop) {
        LexicalError::OpenComment
    } else {
        LexicalError::BadByte
    };
    Misread { error, at: stop }
}

/// Where the comment that opens at `at` ends, and how many line feeds are in it.
pub(crate) fn comment_at(text: &[u8], at: usize) -> Result<(usize, usize), Misread>
    requires inside { at < length text.now }
    requires opening { IsTrue (opens_comment text.now at) }
    ensures within { IfOk result (λ r. at < r.0 × r.0 ≤ length text.now) }
    ensures found { IfOk result (λ r. IsComment text.now at r.0) }
    ensures feeds { IfOk result (λ r. r.1 ≡ count_feeds (slice_range text.now at r.0)) }
    ensures place { IfErr result (λ m. at ≤ m.at × m.at ≤ length text.now) }
    ensures refused { IfErr result (λ m. (end : ℕ) → IsComment text.now at end → ⊥) }
    ensures error { IfErr result (λ m. IsCommentError text.now at m.error m.at) }
{
    let plain = plain_end(text, at + 2);
    if closes_comment(text, plain) {
        return Ok((plain + 2, 0));
    }
    let stop = inside_end(text, at + 2, plain);
    if closes_comment(text, stop) {
        Ok((stop + 2, line_feeds(&text[at..stop + 2])))
    } else {
        Err(misread_at(text, at, stop))
    }
}
