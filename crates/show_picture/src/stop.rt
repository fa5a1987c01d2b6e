// Why a trace has no picture.

use group_rounds::replay::Refused;
use std::alloc::AllocError;

/// Why a trace has no picture.
#[derive(Clone, Copy)]
pub enum Stop {
    /// The world refuses this event of the trace, by its index.
    Refused(Refused),
    /// An allocation failed.
    Memory,
}

impl From<AllocError> for Stop {
    ghost use Rattle.std.specs.Prelude.{◌≡◌};
    ghost use Rattle.show_picture.specs.declared.stop.Stop.TheVariants.{Memory};

    ghost from_gives = { λ _ s. s ≡ Memory };

    fn from(_error: AllocError) -> Stop {
        Stop::Memory
    }
}
