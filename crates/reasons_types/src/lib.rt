//! What is reported of types beside a fault: the type that is there, the one that must be there, and arguments.
#![tactic(auto)]

pub mod range_words;
pub mod types;
pub mod types_arguments;
pub mod types_initials;
pub mod types_inputs;
pub mod types_kinds;
pub mod types_operands;
pub mod types_results;
mod types_taken;
pub mod types_wanted;
pub mod types_words;
pub mod types_written;
