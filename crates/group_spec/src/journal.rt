// What happened to a station, as its journal keeps it.

use crate::hand::Hand;
use crate::image::Fields;

/// An entry of a journal. Tasks are 1 and on for the cars, 0 for the group. A commit comes after the
/// task's instructions. A refresh has the set of the calls that it entered.
#[derive(Drop)]
pub enum Entry {
    Start(u8),
    Commit(u8),
    Refresh { fields: Fields, calls: Hand },
}
