//! The state of a lift group between scans, as text: written, and read back.
#![tactic(auto)]

pub mod begin;
pub mod calls;
pub mod car;
pub mod fault;
pub mod fields;
pub mod head;
mod lines;
mod numbers;
pub mod put;
pub mod read;
mod setting;
mod values;
mod variables;
