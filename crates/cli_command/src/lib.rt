//! The command `liftplc` over its words, with readers of files and sinks for what it prints.
#![tactic(auto)]

mod disk_trace;
mod liftplc;
pub mod memory_trace;
mod origin;
mod others;
pub mod program;
pub mod serving;
