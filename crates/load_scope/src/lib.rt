//! What names mean in the units of a configuration.
#![tactic(auto)]

pub mod blocks;
pub mod entry;
pub mod functions;
mod image;
mod inputs;
mod labels;
mod lookup;
mod meaning;
mod numbers;
pub mod roles;
mod scoped;
mod stores;
mod tables;
mod unit;
mod words;

pub use image::{ImageRow, image_rows};
pub use meaning::is_seen_by;
pub use numbers::is_program;
pub use scoped::Scoped;
pub use unit::UnitScope;
