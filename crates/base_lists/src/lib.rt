//! Lists, as contracts see them: one that grows, and one in fixed room.
#![tactic(auto)]

mod bounded;
mod items;

pub use bounded::Bounded;
pub use items::Items;
