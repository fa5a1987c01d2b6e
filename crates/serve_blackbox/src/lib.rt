//! The black box of a group that serves: how a trace begins, where a group goes on that a trace tells of, and how it goes on in another trace.
#![tactic(auto)]

pub mod group;
pub mod head;
pub mod keep;
pub mod resume;
pub mod sink;
