// Why a reader stops.

ghost use Rattle.std.specs.Prelude.{◌≡◌};
ghost use Rattle.load_lines.specs.declared.stop.Stop.TheVariants.{Memory};
ghost use Rattle.load_lines.specs.Reads.{number_of};

use il_syntax::tree::Place;
use std::alloc::{AllocError, AllocFailed};
use thiserror::Error;

/// Why tokens spell no configuration (IEC 61131-3:2003, 3.2; the limits are an own rule).
#[derive(Clone, Copy, Debug, Error)]
pub enum SyntaxError {
    /// A token with which no configuration goes on.
    #[error("an unexpected token")]
    Unexpected,
    /// A parenthesis too many is open.
    #[error("parentheses too deep")]
    TooDeep,
    /// A unit or an instruction is one too many.
    #[error("too many units, instructions or slots")]
    TooMany,
}

impl SyntaxError {
    /// The number of the fault.
    pub fn number(self) -> u16
        ensures { result ≡ number_of self }
    {
        match self {
            SyntaxError::Unexpected => 10,
            SyntaxError::TooDeep => 11,
            SyntaxError::TooMany => 12,
        }
    }
}

/// Why a reader gives nothing.
#[derive(Clone, Copy)]
pub enum Stop {
    /// An allocation failed.
    Memory,
    /// A syntax error at a place, or at the end of the text.
    Fault {
        error: SyntaxError,
        place: Option<Place>,
    },
}

impl From<AllocError> for Stop {
    ghost from_gives = { λ _ e. e ≡ Memory };

    fn from(_e: AllocError) -> Stop {
        Stop::Memory
    }
}

impl<T: Drop> From<AllocFailed<T>> for Stop {
    ghost from_gives = { λ _ e. e ≡ Memory };

    fn from(_e: AllocFailed<T>) -> Stop {
        Stop::Memory
    }
}
