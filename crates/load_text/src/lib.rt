//! From a text to a verified configuration.
#![tactic(auto)]

mod loader;
mod per_unit;

pub use il_syntax::fault::Refusal;
pub use load_declarations::UnitFault;
pub use loader::{load, unbroken};
pub use per_unit::unit_faults;
pub use scan_task::Verified;
