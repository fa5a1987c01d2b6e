//! One instruction on rows of slots: values, instances of standard blocks, and where a scan is.
#![tactic(auto)]

pub mod blocks;
pub mod current;
pub mod instruction;
pub mod rows;
