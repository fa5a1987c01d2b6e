//! What the commands print over a verified configuration.
#![tactic(auto)]

mod busy;
pub mod check;
pub mod image;
pub mod limits;
pub mod outcome;
mod path;
pub mod scan;
pub mod span;
pub mod telling;
