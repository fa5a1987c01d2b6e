//! Help, the version, and what is wrong with words that ask for nothing.
#![tactic(auto)]

pub mod command;
mod misuse;
mod table;
