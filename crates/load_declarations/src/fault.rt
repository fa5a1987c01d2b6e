// The faults of declarations.

ghost use Rattle.load_declarations.specs.DeclareFaults.{declare_fault_number};

use il_statics::PhaseFault;
use thiserror::Error;

/// What a declaration, a name in a body, or a task breaks.
#[derive(Clone, Copy, Debug, Drop, PartialEq, Eq, Error)]
pub enum DeclareFault {
    /// A name that is predeclared or that another declaration of its name space has (IEC 61131-3:2003, 2.4.3, 2.5, 2.7).
    #[error("a name declared twice")]
    Duplicate,
    /// A name that means nothing that its place takes (2.4.3).
    #[error("an unknown name")]
    Unknown,
    /// A subrange or an array's bounds that are empty, beyond their base or too long (2.3.3.1).
    #[error("an empty subrange")]
    EmptyRange,
    /// An initial value or a size outside its range (2.4.3.2, own rule).
    #[error("an initial value or a size outside its range")]
    InitOutOfRange,
    /// A task that the group doesn't have, or that is missing; a wrong PROGRAM line; an unused program (2.7.2).
    #[error("a wrong task")]
    BadTask,
    /// A type that is not what its place asks for (2.4.3, 2.4.3.2, 3.2.3).
    #[error("another type than its place asks for")]
    TypeDiffers,
}

impl PhaseFault for DeclareFault {
    ghost number_of = { declare_fault_number };

    fn number(self) -> u16 {
        match self {
            DeclareFault::Duplicate => 20,
            DeclareFault::Unknown => 21,
            DeclareFault::EmptyRange => 22,
            DeclareFault::InitOutOfRange => 23,
            DeclareFault::BadTask => 24,
            DeclareFault::TypeDiffers => 25,
        }
    }
}
