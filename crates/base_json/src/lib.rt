//! What is printed, plain or as JSON: an object a line.
#![tactic(auto)]

pub mod form;
pub mod object;
