// What names mean.

use il_statics::names::{Audience, Origin, StandardBlock};
use il_syntax::tree::{Scalar, Subrange};

/// A function block (2.5.2).
#[derive(Clone, Copy)]
pub enum BlockType {
    Standard(StandardBlock),
    /// An own block, by the number of its unit, counted from 0.
    Own(usize),
}

/// The type of a variable (2.4.3).
#[derive(Clone, Copy)]
pub enum VariableType {
    Scalar(Scalar),
    Array { bounds: Subrange, element: Scalar },
    /// An instance of a block; none where the type's name is no block's.
    Instance(Option<BlockType>),
}

/// A variable that a name means.
#[derive(Clone, Copy)]
pub struct Variable {
    pub declared: VariableType,
    pub origin: Origin,
}

/// An image name (own rule).
#[derive(Clone, Copy)]
pub struct ImageName {
    pub variable: Variable,
    pub audience: Audience,
}

/// What a name can mean in a unit.
#[derive(Clone, Copy)]
pub enum Binding {
    Variable(Variable),
    /// A unit.
    Unit,
    /// A standard function or block.
    Standard,
}
