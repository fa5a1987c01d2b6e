//! Bytes as they are shown in one line.
#![tactic(auto)]

pub mod shown;
