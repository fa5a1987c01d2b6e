//! The image, as a task sees it in its rows.
#![tactic(auto)]

pub mod image;
mod opening;
pub mod rows;

pub use opening::opening_image;
