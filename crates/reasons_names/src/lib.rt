//! What is reported of a name beside its fault: where it is declared already, what it means instead, and a near name.
#![tactic(auto)]

pub mod names_again;
pub mod names_known;
pub mod names_labels;
pub mod names_meant;
pub mod names_near;
pub mod names_spots;
pub mod names_stores;
pub mod names_targets;
pub mod names_tasks;
pub mod names_unknown;
pub mod writing;
