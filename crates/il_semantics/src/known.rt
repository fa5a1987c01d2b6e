// What is known of values.

use il_syntax::tree::{Elementary, Operator};
use ranges_interval::Interval;

/// What is known of a value: that it is a Boolean, or its type and an interval of it. Booleans are never narrowed.
#[derive(Clone, Copy)]
pub enum Known {
    Flag,
    Ranged(Elementary, Interval),
}

/// A deferred operation, with what is known of its left operand.
#[derive(Clone, Copy)]
pub struct KnownDeferred {
    pub operator: Operator,
    pub left: Known,
}
