// The faults of order.

ghost use Rattle.load_order.specs.OrderFaults.{order_fault_number};

use il_statics::PhaseFault;
use thiserror::Error;

/// What the order of units, or a task's slots, break (IEC 61131-3:2003, 2.5; own rules).
#[derive(Clone, Copy, Debug, Drop, PartialEq, Eq, Error)]
pub enum OrderFault {
    /// A unit that reaches itself (2.5).
    #[error("a unit that uses itself")]
    Recursive,
    /// A unit with a chain of uses of more than 16 units, itself counted (own rule).
    #[error("a chain of uses that is too long")]
    TooDeepCalls,
    /// A task with more than 4096 slots (own rule).
    #[error("too many units, instructions or slots")]
    TooMany,
}

impl PhaseFault for OrderFault {
    ghost number_of = { order_fault_number };

    fn number(self) -> u16 {
        match self {
            OrderFault::Recursive => 36,
            OrderFault::TooDeepCalls => 46,
            OrderFault::TooMany => 12,
        }
    }
}
