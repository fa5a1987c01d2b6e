// Values.

use il_syntax::tree::{Elementary, Operator};

/// A value: a Boolean, or a whole number. A time is its whole milliseconds.
#[derive(Clone, Copy)]
pub enum Value {
    Boolean(bool),
    Integer(i64),
}

/// A value with its type. A value of a subrange has the type of its base (own rule).
#[derive(Clone, Copy)]
pub struct Content {
    pub elementary: Elementary,
    pub value: Value,
}

/// What `OP(` has set aside (IEC 61131-3:2003, 3.2.2): the operator, and the result before it.
#[derive(Clone, Copy)]
pub struct Deferred {
    pub operator: Operator,
    pub left: Content,
}
