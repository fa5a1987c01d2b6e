// Why a trace is not written, or not read.

ghost use Rattle.std.specs.Prelude.{◌≡◌};
ghost use Rattle.trace_text.specs.Faults.{trace_fault_number};

use cli_host::sink::SinkFault;
use std::alloc::AllocFailed;
use thiserror::Error;

/// Why a trace is not written, or not read. Lines count from 1.
#[derive(Clone, Copy, Debug, Drop, PartialEq, Eq, Error)]
pub enum TraceFault {
    /// The line is complete and wrong, or follows the last line of a trace.
    #[error("line {line} is no line of a trace")]
    BadLine { line: u32 },
    /// The text ends in this line, before the trace's end.
    #[error("the trace ends too early, in line {line}")]
    Truncated { line: u32 },
    /// The sink failed.
    #[error("the trace can't be written")]
    Write,
    /// An allocation failed.
    #[error("out of memory")]
    Memory,
}

impl TraceFault {
    /// The number that is printed, 80 to 82; out of memory has none.
    pub fn number(self) -> Option<u8>
        ensures { result ≡ trace_fault_number self }
    {
        match self {
            TraceFault::BadLine { .. } => Some(80),
            TraceFault::Truncated { .. } => Some(81),
            TraceFault::Write => Some(82),
            TraceFault::Memory => None,
        }
    }
}

impl From<SinkFault> for TraceFault {
    ghost use Rattle.std.specs.Prelude.{◌≡◌};
    ghost use Rattle.trace_text.specs.declared.fault.TraceFault.TheVariants.{Write};

    ghost from_gives = { λ _ f. f ≡ Write };

    fn from(_fault: SinkFault) -> TraceFault {
        TraceFault::Write
    }
}

impl<T: Drop> From<AllocFailed<T>> for TraceFault {
    ghost use Rattle.std.specs.Prelude.{◌≡◌};
    ghost use Rattle.trace_text.specs.declared.fault.TraceFault.TheVariants.{Memory};

    ghost from_gives = { λ _ f. f ≡ Memory };

    fn from(_error: AllocFailed<T>) -> TraceFault {
        TraceFault::Memory
    }
}
