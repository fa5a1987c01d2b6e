// Lines of a text.

ghost use Rattle.std.specs.Prelude.{◌≡◌, ◌++◌, ◌∷◌, ◌-◌, ℕ, List, IfSome, IsNone, IfNone};
ghost use Rattle.trace_text.specs.Parts.{Ends};
ghost use Rattle.trace_text.specs.Reading.{IsOneLine};
ghost use Rattle.cli_messages.specs.Places.{IsLineOf, IsLastLine, IsLineAround};

use memchr::{memchr, memrchr};

/// The line of a text around a place.
#[derive(Clone, Copy)]
pub struct Line<'t> {
    /// What comes before the place.
    pub front: &'t [u8],
    /// What is from the place on, without the line feed.
    pub back: &'t [u8],
}

// The first line, and the rest from its line feed on.
fn first_line(text: &[u8]) -> (&[u8], &[u8])
    ensures whole { text.now ≡ result.0.now ++ result.1.now }
    ensures line { IsOneLine result.0.now }
    ensures ends { Ends 10 result.1.now }
{
    let end = memchr(b'\n', text).unwrap_or(text.len());
    text.split_at(end)
}

// The text after the first line feed.
fn behind_line(text: &[u8]) -> Option<&[u8]>
    ensures found { IfSome result (λ rest. (line : List ℕ) × IsOneLine line
        × (text.now ≡ line ++ 10 ∷ rest.now)) }
    ensures none { IfNone result (IsOneLine text.now) }
{
    let (_, rest) = first_line(text);
    let (_, behind) = rest.split_first()?;
    Some(behind)
}

/// The line after so many others, without its line feed.
pub fn line_at(text: &[u8], before: u32) -> Option<&[u8]>
    ensures found { IfSome result (λ line. IsLineOf before text.now line.now) }
    ensures none { IsNone result → (line : List ℕ) → IsLineOf before text.now line → ⊥ }
{
    let mut rest = text;
    'lines: for _ in 0..before {
        rest = behind_line(rest)?;
    }
    let (line, _) = first_line(rest);
    Some(line)
}

// What follows the last line feed.
fn last_line(text: &[u8]) -> &[u8]
    ensures { IsLastLine text.now result.now }
{
    match memrchr(b'\n', text) {
        Some(at) => &text[at + 1..],
        None => text,
    }
}

/// The line around the place after so many bytes; after the end of the text, the last one.
pub fn line_around(text: &[u8], offset: usize) -> Line<'_>
    ensures { IsLineAround text.now offset result.front.now result.back.now }
{
    let (before, behind) = text.split_at(offset.min(text.len()));
    let (back, _) = first_line(behind);
    Line {
        front: last_line(before),
        back,
    }
}
