// Bytes sixteen at a time, and in comments thirty-two.

ghost use Rattle.std.specs.Prelude.{◌≡◌, ◌+◌, ◌≤◌, ◌==◌, length, count_by};
ghost use Rattle.std.specs.Simd.Lanes.{chunk};
ghost use Rattle.std.specs.Char.{is_ascii_alphanumeric};
ghost use Rattle.il_syntax.specs.Text.{line_feed};
ghost use Rattle.load_tokens.specs.Lanes.{PassesIn, IsRunIn, first_set, is_plain};

use std::simd::prelude::*;

/// How many bytes are looked at together.
pub(crate) const LANES: usize = 16;

/// How many bytes of a comment are looked at together.
pub(crate) const COMMENT_LANES: usize = 32;

// The place of the lowest bit that is set, or the number of lanes.
#[inline(always)]
fn first_set(mask: u64, lanes: usize) -> usize
    ensures { result ≡ first_set mask lanes }
{
    if mask == 0 {
        lanes
    } else {
        mask.trailing_zeros() as usize
    }
}

/// How many of the bytes from `at` on may be anywhere in a comment, and neither `(*` nor `*)` begins with them.
#[inline(always)]
pub(crate) fn plain_run(text: &[u8], at: usize) -> usize
    requires { at + 32 ≤ length text.now }
    ensures { PassesIn is_plain text.now at 32 result }
{
    let bytes = u8x32::from_slice(&text[at..]);
    let from_space = bytes - u8x32::splat(b' ');
    let stops = from_space.simd_ge(u8x32::splat(95))
        | bytes.simd_eq(u8x32::splat(b'('))
        | bytes.simd_eq(u8x32::splat(b'*'));
    first_set(stops.to_bitmask(), COMMENT_LANES)
}

/// How many of the bytes from `at` on are letters and digits.
#[inline(always)]
pub(crate) fn alphanumeric_run(text: &[u8], at: usize) -> usize
    requires { at + 16 ≤ length text.now }
    ensures { IsRunIn is_ascii_alphanumeric text.now at 16 result }
{
    let bytes = u8x16::from_slice(&text[at..]);
    let letters = (bytes | u8x16::splat(0x20)) - u8x16::splat(b'a');
    let digits = bytes - u8x16::splat(b'0');
    let stops = letters.simd_ge(u8x16::splat(26)) & digits.simd_ge(u8x16::splat(10));
    first_set(stops.to_bitmask(), LANES)
}

/// How many of the bytes from `at` on are line feeds.
#[inline(always)]
pub(crate) fn feeds(bytes: &[u8], at: usize) -> usize
    requires { at + 16 ≤ length bytes.now }
    ensures few { result ≤ 16 }
    ensures count { result ≡ count_by (λ b. b == line_feed) (chunk at 16 bytes.now) }
{
    u8x16::from_slice(&bytes[at..])
        .simd_eq(u8x16::splat(b'\n'))
        .to_bitmask()
        .count_ones() as usize
}
