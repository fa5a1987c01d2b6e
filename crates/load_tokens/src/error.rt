// What can be wrong with the bytes of a text.

ghost use Rattle.std.specs.Prelude.{◌≡◌, ◌≤◌};
ghost use Rattle.load_tokens.specs.LexicalErrors.{number_of_error};

use thiserror::Error;

/// The number of the fault of a text that is too long.
pub(crate) const TEXT_TOO_LONG: u16 = 6;

/// Why the bytes at a place are no token and no blank.
#[derive(Clone, Copy, Debug, Error)]
pub(crate) enum LexicalError {
    /// A byte that begins no token, or one in a comment that no text has.
    #[error("a byte that has no place in a text")]
    BadByte,
    /// `(*` that no `*)` closes, or that is in a comment.
    #[error("a comment that is open")]
    OpenComment,
    /// A number or a typed literal that is not well formed.
    #[error("a number or a typed literal that is not well formed")]
    BadNumber,
    /// A number or a typed literal whose value is too large.
    #[error("a number or a typed literal that is too large")]
    NumberTooLarge,
    /// A word that is no identifier, or too long.
    #[error("a word that is no identifier")]
    BadIdentifier,
}

/// A lexical error and its place.
#[derive(Clone, Copy)]
pub(crate) struct Misread {
    pub(crate) error: LexicalError,
    pub(crate) at: usize,
}

impl LexicalError {
    /// The fault's number.
    pub(crate) fn number(self) -> u16
        ensures low { 1 ≤ result }
        ensures high { result ≤ 5 }
        ensures number { result ≡ number_of_error self }
    {
        match self {
            LexicalError::BadByte => 1,
            LexicalError::OpenComment => 2,
            LexicalError::BadNumber => 3,
            LexicalError::NumberTooLarge => 4,
            LexicalError::BadIdentifier => 5,
        }
    }
}
