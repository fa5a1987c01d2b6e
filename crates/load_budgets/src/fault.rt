// The fault of budgets.

ghost use Rattle.load_budgets.specs.Costs.{budget_fault_number};

use il_statics::PhaseFault;
use thiserror::Error;

/// What a unit's cost breaks (own rule).
#[derive(Clone, Copy, Debug, Drop, PartialEq, Eq, Error)]
pub enum BudgetFault {
    /// A unit whose greatest cost is over 1000000.
    #[error("a unit that costs too much")]
    TooLong,
}

impl PhaseFault for BudgetFault {
    ghost number_of = { budget_fault_number };

    fn number(self) -> u16 {
        match self {
            BudgetFault::TooLong => 50,
        }
    }
}
