//! The world of a lift group: the image, the tasks' scans, and what each event does to them.
#![tactic(auto)]

mod calling;
mod group;
mod held;
mod replies;
mod shared;
mod stores;
mod taking;
mod tickets;
mod world;

pub use group::Core;
pub use group_spec::calls::{Answer, Call, Slot};
pub use group_spec::event::{Event, EventFault, Reply};
pub use group_spec::hand::Hand;
pub use group_spec::report::{Denial, Report, Rule};
pub use group_spec::{Bounded, CarFields, CarOutputs, Fields, Image, Motor, Sizes};
pub use il_syntax::fault::Refusal;
pub use replies::Replies;
pub use scan_task::{Unset, Verified};
pub use stores::{Opened, opening};
pub use world::World;
