//! The slots of variables, and flat code over slots: what they are, and what they mean.
#![tactic(auto)]

pub mod flat;
mod laws;
mod offsets;
pub mod parts;
pub mod sizes;
mod standard;
pub mod tables;
pub mod variables;

pub use laws::{flat_code_means_the_tree, paths_and_slots_are_paired};
pub use standard::standard_offset;
