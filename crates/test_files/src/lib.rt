//! The files of the cases, in memory, and what a line of the cases says.
#![tactic(auto)]

mod escape;
pub mod line;
pub mod shelf;
pub mod words;
