//! A trace as a picture: the cars over time, the calls from entry to service, what the interlock denied, and FIRE.
#![tactic(auto)]

mod axes;
mod band;
mod calls;
mod denials;
mod draw;
mod follow;
mod frame;
mod labels;
mod marks;
mod pen;
mod places;
mod rides;
mod span;
mod stop;
mod story;
mod svg;

pub use draw::drawing;
pub use span::Span;
pub use stop::Stop;
