// Why a text is no state of a group.

ghost use Rattle.std.specs.Prelude.{◌≡◌};
ghost use Rattle.group_state.specs.Faults.{state_fault_number};

use std::alloc::AllocError;
use thiserror::Error;

/// What is wrong with a line of a state.
#[derive(Clone, Copy, Debug, Drop, PartialEq, Eq, Error)]
pub enum StateFault {
    /// It has not the form of the line that has to come there, or a number too large for its kind.
    #[error("this is not the line that has to come here")]
    BadLine,
    /// The text ends in it.
    #[error("the state ends too early")]
    Truncated,
    /// NOW, RUNLIMIT or POS is not of the group.
    #[error("a field is out of range")]
    OutOfRange,
    /// The call of a slot has a floor, or the slot a car, that the group hasn't.
    #[error("there is no such floor or car")]
    NoSuchActor,
    /// The call of a slot is from a floor to itself.
    #[error("a call goes from a floor to itself")]
    SameFloor,
    /// The state is that of another configuration.
    #[error("the state is that of another configuration")]
    OtherConfiguration,
    /// The outputs of a car do not obey the interlock.
    #[error("the outputs do not obey the interlock")]
    Interlock,
    /// The ticket of a slot is 0, was not given yet, or is that of an earlier slot.
    #[error("no slot can have this ticket")]
    Ticket,
    /// A variable is unknown, is twice or out of order, or has its initial value.
    #[error("no line of this variable can stand here")]
    NoVariable,
    /// The value of a variable is not of its declared set.
    #[error("the value is not of the variable's declared set")]
    OutsideRange,
}

impl StateFault {
    /// The number that is printed.
    pub fn number(self) -> u8
        ensures { result ≡ state_fault_number self }
    {
        match self {
            StateFault::BadLine => 80,
            StateFault::Truncated => 81,
            StateFault::OutOfRange => 60,
            StateFault::NoSuchActor => 64,
            StateFault::SameFloor => 65,
            StateFault::OtherConfiguration => 85,
            StateFault::Interlock => 86,
            StateFault::Ticket => 87,
            StateFault::NoVariable => 88,
            StateFault::OutsideRange => 89,
        }
    }
}

/// A fault and its line. Lines count from 1, which is the first line of the text, `LIFTTRACE 3`.
#[derive(Clone, Copy, Debug, Drop, PartialEq, Eq)]
pub struct Wrong {
    pub fault: StateFault,
    pub line: u64,
}

/// Why no state was read.
#[derive(Clone, Copy, Debug, Drop, PartialEq, Eq)]
pub enum StateError {
    /// A line is wrong.
    Unread(Wrong),
    /// An allocation failed.
    Memory,
}

impl From<Wrong> for StateError {
    ghost use Rattle.std.specs.Prelude.{◌≡◌};
    ghost use Rattle.group_state.specs.declared.fault.StateError.TheVariants.{Unread};

    ghost from_gives = { λ wrong e. e ≡ Unread wrong };

    fn from(wrong: Wrong) -> StateError {
        StateError::Unread(wrong)
    }
}

impl From<AllocError> for StateError {
    ghost use Rattle.std.specs.Prelude.{◌≡◌};
    ghost use Rattle.group_state.specs.declared.fault.StateError.TheVariants.{Memory};

    ghost from_gives = { λ _ e. e ≡ Memory };

    fn from(_error: AllocError) -> StateError {
        StateError::Memory
    }
}
