//! What a program prints, how it is shown on the two streams, and what is below a fault.
#![tactic(auto)]

pub mod lines;
pub mod mark;
pub mod notice;
pub mod output;
pub mod place;
pub mod show;
