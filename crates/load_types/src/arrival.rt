// What the pass keeps of a place.

use il_syntax::tree::Elementary;

/// What is known of a place: nothing leads to it, or something does, with this type of the result.
#[derive(Clone, Copy)]
pub enum Arrival {
    Unreached,
    Reached(Option<Elementary>),
}
