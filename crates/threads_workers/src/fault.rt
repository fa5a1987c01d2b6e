// Why a run gives nothing.

use group_journal::fault::StationFault;
use std::alloc::AllocError;
use thiserror::Error;

/// Why a run gives nothing.
#[derive(Clone, Copy, Debug, Drop, Error)]
pub enum RunFault {
    /// An allocation failed, or a thread could not be started.
    #[error("out of memory")]
    OutOfMemory,
    /// The station refused what a worker handed to it. The journal has room for all that workers do and each has its own pass, so no run meets this.
    #[error(transparent)]
    Station(StationFault),
}

impl From<AllocError> for RunFault {
    fn from(_error: AllocError) -> RunFault {
        RunFault::OutOfMemory
    }
}

impl From<StationFault> for RunFault {
    fn from(fault: StationFault) -> RunFault {
        RunFault::Station(fault)
    }
}
