//! The calls of a lift group: the slots that they enter, and the tickets under which they are there.
#![tactic(auto)]

pub mod book;
pub mod columns;

pub use group_spec::calls::{Answer, Call, Entering, Slot};
pub use group_spec::hand::Hand;
pub use group_spec::image::Sizes;
