//! The plant that `sim` runs a group on: cars that move one step each 100 ms, and their doors.
#![tactic(auto)]

mod car;
pub mod plant;
pub mod switches;
