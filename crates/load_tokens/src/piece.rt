// Pieces of a text: tokens, and the blanks between them (IEC 61131-3:2003, 2.1.4).

ghost use Rattle.std.specs.Prelude.{◌≡◌, ◌<◌, ◌≤◌, length, slice_range, IfOk, IfErr};
ghost use Rattle.load_tokens.specs.Pieces.{IsPiece, HasNoPiece, feeds_of, count_feeds};
ghost use Rattle.load_tokens.specs.LexicalErrors.{IsErrorAt};

use crate::bytes::byte_at;
use crate::comment::{comment_at, opens_comment};
use crate::error::Misread;
use crate::lexeme::lexeme_at;
use il_syntax::token::Kind;

/// A piece of a text.
#[derive(Clone, Copy)]
pub(crate) enum Piece {
    /// A space, a tab or a comment.
    Blank,
    Token(Kind),
}

/// A piece that was read: where it ends, and how many line feeds are in it.
#[derive(Clone, Copy)]
pub(crate) struct Stretch {
    pub(crate) piece: Piece,
    pub(crate) end: usize,
    pub(crate) feeds: usize,
}

// How many line feeds are in a token.
#[inline(always)]
fn feeds_of(kind: Kind) -> usize
    ensures { result ≡ feeds_of kind }
{
    match kind {
        Kind::LineEnd => 1,
        _ => 0,
    }
}

/// The piece at `at`. Line feeds and spaces are told first, as most pieces but words are these.
pub(crate) fn piece_at(text: &[u8], at: usize) -> Result<Stretch, Misread>
    requires { at < length text.now }
    ensures within { IfOk result (λ r. at < r.end × r.end ≤ length text.now) }
    ensures found { IfOk result (λ r. IsPiece text.now r.piece at r.end) }
    ensures feeds { IfOk result (λ r. r.feeds ≡ count_feeds (slice_range text.now at r.end)) }
    ensures place { IfErr result (λ m. at ≤ m.at × m.at ≤ length text.now) }
    ensures none { IfErr result (λ _. HasNoPiece text.now at) }
    ensures error { IfErr result (λ m. IsErrorAt text.now at m.error m.at) }
{
    let first = byte_at(text, at);
    if first == b'\n' {
        return Ok(Stretch {
            piece: Piece::Token(Kind::LineEnd),
            end: at + 1,
            feeds: 1,
        });
    }
    if first == b' ' || first == b'\t' {
        return Ok(Stretch {
            piece: Piece::Blank,
            end: at + 1,
            feeds: 0,
        });
    }
    if opens_comment(text, at) {
        let (end, feeds) = comment_at(text, at)?;
        return Ok(Stretch {
            piece: Piece::Blank,
            end,
            feeds,
        });
    }
    match lexeme_at(text, at) {
        Ok((kind, end)) => Ok(Stretch {
            piece: Piece::Token(kind),
            end,
            feeds: feeds_of(kind),
        }),
        Err(error) => Err(Misread { error, at }),
    }
}
