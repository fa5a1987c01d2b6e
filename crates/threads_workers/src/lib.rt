//! The workers of a run: a thread for each task, one that gathers calls and refreshes, and one for each panel that is pressed.
#![tactic(auto)]

mod fault;
pub mod gate;
mod panel;
mod refresher;
pub mod run;
mod task;

pub use fault::RunFault;
