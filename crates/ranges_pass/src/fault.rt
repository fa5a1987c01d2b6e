// The faults of ranges.

ghost use Rattle.ranges_pass.specs.RangeFaults.{range_fault_number};

use il_statics::PhaseFault;
use thiserror::Error;

/// What an instruction breaks by the ranges of its values (own rules).
#[derive(Clone, Copy, Debug, Drop, PartialEq, Eq, Error)]
pub enum RangeFault {
    /// A result that may leave its type.
    #[error("a result that may leave its type")]
    Overflow,
    /// A divisor that may be 0.
    #[error("a divisor that may be 0")]
    ZeroDivisor,
    /// An index that may lie outside of its array.
    #[error("an index that may lie outside of its array")]
    Index,
    /// A store of a value that may leave its variable's range.
    #[error("a stored value that may leave its variable's range")]
    Subrange,
    /// An argument that may leave its input's range, or an output that may leave its target's.
    #[error("an argument that may leave its input's range")]
    Argument,
}

impl PhaseFault for RangeFault {
    ghost number_of = { range_fault_number };

    fn number(self) -> u16 {
        match self {
            RangeFault::Overflow => 40,
            RangeFault::ZeroDivisor => 41,
            RangeFault::Index => 42,
            RangeFault::Subrange => 43,
            RangeFault::Argument => 44,
        }
    }
}
