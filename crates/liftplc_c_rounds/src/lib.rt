//! The rounds of a world behind a pointer, as C keeps them.
#![tactic(auto)]

mod held;
mod unboxed;

pub use held::Held;
