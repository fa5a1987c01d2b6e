//! Runs of a group: on its simulated plant, under fields that come from outside, and along a trace.
#![tactic(auto)]

pub mod ahead;
pub mod along;
pub mod kept;
pub mod notice;
pub mod observer;
pub mod replay;
mod rounds;
pub mod scan;
pub mod sim;
mod steps;

pub use rounds::round;
pub use steps::{gather_all, tasks_in};
