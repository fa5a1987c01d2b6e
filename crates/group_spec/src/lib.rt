//! What a lift group is: its image, calls, events, reports and traces.
//! The definitions that every layer of the group cites are in `specs/`.
#![tactic(auto)]

mod bounds;
pub mod calls;
pub mod event;
pub mod hand;
pub mod image;
pub mod journal;
pub mod outputs;
pub mod report;
pub mod trace;

pub use base_lists::Bounded;
pub use bounds::{in_range, is_floor, range_is_tested};
pub use image::{
    CAR_PLACES, CarFields, CarOutputs, Fields, Image, MOST_CARS, Motor, SLOT_PLACES, Sizes,
    TASK_PLACES,
};
pub use outputs::Outputs;
