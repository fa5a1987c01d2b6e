//! What sees a simulation or a trace go by, and writes of it: what the interlock denied, values after each round, the calls.
#![tactic(auto)]

pub mod asked;
pub mod calls;
pub mod changes;
pub mod denials;
pub mod following;
pub mod known;
pub mod names;
pub mod unnamed;
pub mod watch;
pub mod words;
