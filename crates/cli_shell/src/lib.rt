//! A program that reads one file and runs one command over its text: from its words to its exit status.
#![tactic(auto)]

pub mod commands;
mod cut;
pub mod entry;
pub mod explained;
pub mod run;
mod told;
