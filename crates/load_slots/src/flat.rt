// Flat code.

use base_lists::Items;
use il_semantics::value::Content;
use il_statics::names::{StandardBlock, StandardFunction};
use il_syntax::name::Name;
use il_syntax::tree::{Condition, Elementary, Operator, Scalar, Store, Subrange};

/// What a slot keeps: the variable of a path, of a scalar type.
#[derive(Drop)]
pub struct Cell {
    pub path: Name,
    pub scalar: Scalar,
}

/// A place in the rows of values, counted from the base of the frame that runs: of a Boolean, or of a
/// number of a type.
#[derive(Clone, Copy)]
pub enum Slot {
    Flag(usize),
    Number(Elementary, usize),
}

/// An operand with its names resolved.
#[derive(Clone, Copy)]
pub enum Operand {
    Constant(Content),
    /// A literal that takes the type of the current result.
    Bare(i64),
    /// A scalar variable, an element by a number, or an input or output of an instance.
    At(Slot),
    /// An element by a variable: the slot of the first element, and that of the index.
    Element {
        first: Slot,
        bounds: Subrange,
        index: usize,
    },
    /// An element outside its array.
    Outside,
}

/// An input of a call: where it is, and what it is given.
#[derive(Clone, Copy)]
pub struct Assignment {
    pub to: Slot,
    pub from: Operand,
}

/// An output of a call: where it is, and where it is copied to.
#[derive(Clone, Copy)]
pub struct Copied {
    pub from: Slot,
    pub to: Slot,
}

/// A flat instruction: one for each written instruction, and one for the implicit RET.
#[derive(Drop)]
pub enum Flat {
    Load {
        negated: bool,
        operand: Operand,
    },
    Store {
        store: Store,
        target: Operand,
    },
    Not,
    Operate {
        operator: Operator,
        operand: Operand,
    },
    /// `OP(`, with the operand of the short form.
    Defer {
        operator: Operator,
        first: Option<Operand>,
    },
    /// `)`
    Evaluate,
    Jump {
        condition: Condition,
        to: usize,
    },
    Return {
        condition: Condition,
    },
    /// A call of an own block: its unit, and the base of its instance from that of the frame.
    Call {
        condition: Condition,
        unit: usize,
        base: usize,
        inputs: Items<Assignment>,
        outputs: Items<Copied>,
    },
    /// A call of a standard block (IEC 61131-3:2003, 2.5.2.3), with the base of its instance from that
    /// of the frame. Its variables are there in the order of its inputs, outputs and inner variables.
    CallStandard {
        condition: Condition,
        block: StandardBlock,
        base: usize,
        inputs: Items<Assignment>,
        outputs: Items<Copied>,
    },
    /// A call of a standard function (2.5.1.5), with the operands after the current result.
    Apply {
        function: StandardFunction,
        operands: Items<Operand>,
    },
    /// A call of an own function (2.5.1): its unit, and its inputs after the first, which is given the
    /// current result. They are in the function's frame, their operands in the frame that calls.
    Invoke {
        unit: usize,
        inputs: Items<Assignment>,
    },
}

/// What a call of an own function needs. Slots are counted from the base of the function's frame, which
/// each task has once for each function that it uses.
#[derive(Drop)]
pub struct FunctionCode {
    /// The first input, which is given the current result.
    pub first: Slot,
    /// The variable of the function's own name, which is its result.
    pub result: Slot,
    /// What all its variables begin with at each call, the last one first.
    pub fresh: Items<Assignment>,
}

/// The flat code of a unit, and as a function what its calls need.
#[derive(Drop)]
pub struct UnitCode {
    pub name: Name,
    pub code: Items<Flat>,
    pub function: Option<FunctionCode>,
}
