//! What is reported of ranges beside a fault: what is known before the instruction, by the least ranges.
#![tactic(auto)]

pub mod range_arguments;
pub mod range_divisors;
pub mod range_indexes;
pub mod range_inputs;
pub mod range_operands;
pub mod range_results;
pub mod range_stores;
pub mod ranges;
