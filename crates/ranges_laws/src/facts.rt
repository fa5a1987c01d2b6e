// What the pass keeps of a place.

use base_lists::Items;
use il_semantics::known::{Known, KnownDeferred};
use ranges_rows::Row;

/// A range for each variable that has a number, the current result, and what is set aside.
#[derive(Drop)]
pub struct Facts {
    pub row: Row,
    pub result: Option<Known>,
    pub deferred: Items<KnownDeferred>,
}
