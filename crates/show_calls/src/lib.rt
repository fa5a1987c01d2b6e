//! The calls of a trace, each from its press to its service, and what they take together.
#![tactic(auto)]

pub mod journey;
pub mod lines;
pub mod log;
pub mod presses;
pub mod summary;
