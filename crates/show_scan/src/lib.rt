//! A scan of a trace, instruction by instruction.
#![tactic(auto)]

mod before;
pub mod chosen;
mod line;
pub mod shown;
mod values;
mod view;

pub use chosen::{Asked, Lines};
pub use shown::{ScanStop, scan_text};
pub use view::lines_of_unit;
