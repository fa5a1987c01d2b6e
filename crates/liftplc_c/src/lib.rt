//! The controller for a program in C: each export on a handle that C keeps.
#![tactic(auto)]

mod asking;
mod fields;
mod handle;
mod history;
mod notices;
mod opening;
mod outputs;
mod pressing;
mod refusal;
mod resuming;
mod saving;
mod status;
mod stepping;
#[cfg(test)]
mod tests;
