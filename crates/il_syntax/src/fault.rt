// Why a text is refused.

use crate::tree::Place;
use std::alloc::{AllocError, AllocFailed};
use thiserror::Error;

/// Why a call gives no answer: a fault of the text, or out of memory.
#[derive(Clone, Copy, Debug, Error)]
pub enum Refusal {
    /// The fault of this number, at this place of the text.
    #[error("refused {number} at line {}", .place.line)]
    Fault { number: u16, place: Place },
    /// An allocation failed.
    #[error("out of memory")]
    Memory,
}

impl From<AllocError> for Refusal {
    ghost use Rattle.std.specs.Prelude.{◌≡◌};
    ghost use Rattle.il_syntax.specs.declared.fault.Refusal.TheVariants.{Memory};

    ghost from_gives = { λ _ e. e ≡ Memory };

    fn from(_e: AllocError) -> Refusal {
        Refusal::Memory
    }
}

impl<T: Drop> From<AllocFailed<T>> for Refusal {
    ghost use Rattle.std.specs.Prelude.{◌≡◌};
    ghost use Rattle.il_syntax.specs.declared.fault.Refusal.TheVariants.{Memory};

    ghost from_gives = { λ _ e. e ≡ Memory };

    fn from(_e: AllocFailed<T>) -> Refusal {
        Refusal::Memory
    }
}
