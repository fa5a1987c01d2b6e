//! Transfer functions: what each instruction makes of what is known at its place.
#![tactic(auto)]

mod blocks;
mod calls;
pub mod carried;
mod functions;
mod instructions;
pub mod join;
mod known;
mod meant;
pub mod observer;
mod operands;
pub mod pass;
mod places;
mod scope;
mod testing;

pub use known::{found_operated, known_of, may_be_zero, range};
pub use meant::Meant;
pub use operands::{is_inside, right_inside};
pub use places::hand_on;
pub use scope::Scope;
