//! A refusal as JSON: an object in one line.
#![tactic(auto)]

mod pieces;
pub mod refusal;
