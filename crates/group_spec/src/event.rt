// What happens to a group, and what is answered.

ghost use Rattle.std.specs.Prelude.{◌≡◌};
ghost use Rattle.group_spec.specs.EventFaults.{event_fault_number};

use crate::calls::Call;
use crate::image::Fields;
use thiserror::Error;

/// An event of the world. Tasks are 1 and on for the cars, 0 for the group.
#[derive(Drop)]
pub enum Event {
    Start(u8),
    Instruction(u8),
    Commit(u8),
    Refresh(Fields),
    Press(Call),
    Gather(u8),
}

/// Why an event did not happen (own rule). It then changes nothing.
#[derive(Clone, Copy, Debug, Drop, PartialEq, Eq, Error)]
pub enum EventFault {
    /// The time, RUNLIMIT or a position, or another number of cars.
    #[error("a field out of range")]
    FieldOutOfRange,
    /// An Instruction or a Commit where no scan of the task is open, or an Instruction after its end.
    #[error("no open scan")]
    NoOpenScan,
    /// A Start where a scan of the task is open.
    #[error("a scan that is open already")]
    AlreadyOpen,
    /// A Commit before the scan's end.
    #[error("a scan that has not ended")]
    NotAtEnd,
    /// A task or a floor that the group doesn't have. It is tested first.
    #[error("no such task or floor")]
    NoSuchActor,
    /// A call from a floor to itself.
    #[error("a call to its own floor")]
    SameFloor,
}

impl EventFault {
    /// The number that is printed, 60 to 65.
    pub fn number(self) -> u8
        ensures { result ≡ event_fault_number self }
    {
        match self {
            EventFault::FieldOutOfRange => 60,
            EventFault::NoOpenScan => 61,
            EventFault::AlreadyOpen => 62,
            EventFault::NotAtEnd => 63,
            EventFault::NoSuchActor => 64,
            EventFault::SameFloor => 65,
        }
    }
}

/// The reply to an event. The report of a commit or a refresh is beside it, so that a reply is small.
#[derive(Clone, Copy, Debug, Drop, PartialEq, Eq)]
pub enum Reply {
    Started,
    More,
    End,
    Committed,
    Refreshed,
    New,
    Already,
    /// The gathered floors, floor `to` as bit `to - 1`.
    Gathered(u16),
    Held,
    Refused(EventFault),
}
