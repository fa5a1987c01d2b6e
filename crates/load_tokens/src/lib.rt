//! The lexer: the bytes of a text, cut into tokens (IEC 61131-3:2003, 2.1 and 2.2).
#![tactic(auto)]

ghost use Rattle.std.specs.Prelude.{◌≡◌, ℕ, ◌<◌, ◌≤◌, ◌⊎◌, List, length, IfOk, IfErr, Err};
ghost use Rattle.std.specs.List.{All};
ghost use Rattle.std.specs.Str.{IsUtf8};
ghost use Rattle.il_syntax.specs.declared.fault.Refusal.{Refusal};
ghost use Rattle.il_syntax.specs.declared.fault.Refusal.TheVariants.{Fault, Memory};
ghost use Rattle.il_syntax.specs.declared.tree.Place.{Place};
ghost use Rattle.il_syntax.specs.declared.token.Token.{Token};
ghost use Rattle.il_syntax.specs.declared.token.Kind.TheVariants.{Word};
ghost use Rattle.il_syntax.specs.Text.{IsToken, AreTokens, HasNoTokens, name_of, line_at};
ghost use Rattle.load_tokens.specs.LexicalErrors.{number_of_error, IsFirstError, IsFaultOfText, the_start, place_at};
ghost use Rattle.load_tokens.specs.Refused.{IsFault, IsFaultOfBytes, IsMemoryOrFaultOfBytes};
ghost use Rattle.il_syntax.specs.declared.limits.TheConstants.{LONGEST_TEXT};

mod bytes;
mod comment;
mod duration;
mod error;
mod lanes;
mod lexeme;
mod literal;
mod number;
mod piece;
mod sign;

use crate::bytes::line_feeds;
use crate::error::{Misread, TEXT_TOO_LONG};
use crate::piece::{Piece, Stretch, piece_at};
pub use il_syntax::fault::Refusal;
pub use il_syntax::limits::LONGEST_TEXT;
use il_syntax::token::{Kind, Sign, Token};
use il_syntax::tree::Place;
use std::alloc::Global;

// How many bytes of a text there are to a token, as a first guess: fewer only where it has no comments.
const BYTES_OF_TOKEN: usize = 4;

// The refusal for what is wrong at or after `at`, a place on this line.
fn refusal(text: &[u8], at: usize, line: u32, misread: Misread) -> Refusal
    requires order { at ≤ misread.at }
    requires within { misread.at ≤ length text.now }
    requires short { length text.now ≤ LONGEST_TEXT }
    requires few { line ≤ 262145 }
    requires is_line { line ≡ line_at text.now at }
    ensures number { IsFaultOfBytes result }
    ensures exactly { result ≡ Fault (number_of_error misread.error)
        (place_at text.now misread.at) }
{
    Refusal::Fault {
        number: misread.error.number(),
        place: Place {
            offset: misread.at as u32,
            line: line + line_feeds(&text[at..misread.at]) as u32,
        },
    }
}

/// The tokens of a text, in its order. What is no token is a space, a tab or a comment.
///
/// A text that has none is refused with the first of these from the left, and the place where it is:
/// 1 a byte that begins no token, or is in a comment and in no text; 2 `(*` that no `*)` closes (at its line), or
/// that is in a comment; 3 a number or a typed literal that is not well formed (2.2.1, 2.2.3.1); 4 one whose value
/// is too large; 5 a word that is no identifier (2.1.2) or has more than 32 characters. A word directly before `#` is
/// always a typed literal, and form goes before size. A text of more than 262144 bytes is refused with 6 at its start, in line 1,
/// whatever is in it (own rule).
pub fn tokens(alloc: Global, text: &[u8]) -> Result<Vec<Token>, Refusal>
    ensures found { IfOk result (λ v. AreTokens text.now 0 v.items) }
    ensures short { IfOk result (λ v. length text.now ≤ LONGEST_TEXT) }
    ensures only { IfOk result (λ v. (ts : List Token) → AreTokens text.now 0 ts → ts ≡ v.items) }
    ensures too_long { LONGEST_TEXT < length text.now → result ≡ Err (Fault 6 the_start) }
    ensures number { IfErr result (λ e. length text.now ≤ LONGEST_TEXT → IsMemoryOrFaultOfBytes e) }
    ensures refused { IsFault result → length text.now ≤ LONGEST_TEXT → HasNoTokens text.now }
    ensures fault { IfErr result (λ e. (e ≡ Memory) ⊎ IsFaultOfText text.now e) }
{
    if text.len() > LONGEST_TEXT {
        return Err(Refusal::Fault {
            number: TEXT_TOO_LONG,
            place: Place { offset: 0, line: 1 },
        });
    }
    let mut found = Vec::with_capacity(alloc, text.len() / BYTES_OF_TOKEN)?;
    let mut line = 1;
    let mut at = 0;
    'pieces: while at < text.len() {
        let Stretch { piece, end, feeds } = match piece_at(text, at) {
            Ok(stretch) => stretch,
            Err(misread) => return Err(refusal(text, at, line, misread)),
        };
        if let Piece::Token(kind) = piece {
            found.push(Token {
                kind,
                start: at as u32,
                end: end as u32,
                line,
            })?;
        }
        line += feeds as u32;
        at = end;
    }
    Ok(found)
}

/// A text has at most one list of tokens.
#[tactic(auto, using(crate::proofs::Cut::cut))]
pub fn one_cut()
    ensures { (text : List ℕ) (ts us : List Token) → AreTokens text 0 ts → AreTokens text 0 us
        → ts ≡ us }
{}

/// No token is empty, and each is within its text.
pub fn tokens_stand_within()
    ensures { (text : List ℕ) (ts : List Token) → AreTokens text 0 ts
        → All (λ t. (t.start < t.end) × (t.end ≤ length text)) ts }
{}

/// A word is text, and so is the name that it is in upper case.
pub fn words_are_text()
    ensures { (text : List ℕ) (at : ℕ) (t : Token) → IsToken text at t → t.kind ≡ Word
        → IsUtf8 (name_of text t) }
{}

/// A text has one fault of its bytes at most; its first lexical error is there where it has no tokens, and only there.
pub fn one_fault_of_bytes()
    ensures once { (text : List ℕ) (e f : Refusal) → IsFaultOfText text e → IsFaultOfText text f
        → e ≡ f }
    ensures none { (text : List ℕ) (ts : List Token) (number : ℕ) (place : Place)
        → AreTokens text 0 ts → IsFirstError text number place → ⊥ }
    ensures some { (text : List ℕ) → HasNoTokens text → (number : ℕ)
        × ((place : Place) × IsFirstError text number place) }
{}
