// Why an event is refused.

ghost use Rattle.std.specs.Prelude.{◌≡◌};
ghost use Rattle.group_journal.specs.Faults.{station_fault_number};

use thiserror::Error;

/// Why a start, a commit or a refresh was refused (own rule). It then changed nothing.
#[derive(Clone, Copy, Debug, Drop, Error)]
pub enum StationFault {
    /// The time, RUNLIMIT or a position, or another number of cars.
    #[error("a field out of range")]
    FieldOutOfRange,
    /// There is no room for another entry.
    #[error("the journal is full")]
    JournalFull,
    /// A commit of a scan whose task, program, variables or snapshot is not what is open.
    #[error("this scan is not open")]
    NotOpen,
    /// A start where a scan of the task is open.
    #[error("a scan of the task is open")]
    AlreadyOpen,
}

impl StationFault {
    /// The number that is printed: 60, or 70 to 72.
    pub fn number(self) -> u8
        ensures { result ≡ station_fault_number self }
    {
        match self {
            StationFault::FieldOutOfRange => 60,
            StationFault::JournalFull => 70,
            StationFault::NotOpen => 71,
            StationFault::AlreadyOpen => 72,
        }
    }
}
