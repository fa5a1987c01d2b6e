//! The machine: it runs the tasks' programs, as flat code on rows of slots.
#![tactic(auto)]

mod globals;
mod looking;
mod outputs;
mod plans;
pub mod rows;
pub mod scanned;
mod scanning;
mod setting;
mod sharing;
pub mod store;
pub mod verified;

pub use il_semantics::value::Value;
pub use load_code::FirstRows;
pub use load_slots::flat::Cell;
pub use looking::Standpoint;
pub use rows::variable;
pub use scan_image::opening_image;
pub use scan_step::rows::Rows;
pub use scanned::{OpenScan, Scanned, scan};
pub use setting::{Unset, set_global, set_variable};
pub use store::{Begin, Stepped, Store, finish, step};
pub use verified::{Tables, TaskInfo, UnitInfo, Verified, tables_of};
