//! The rules of declarations, types and order, as definitions in `specs/`.
#![tactic(auto)]

pub mod elementary;
mod found;
pub mod limits;
pub mod names;
pub mod standard;
#[cfg(test)]
mod tests;
mod written;

ghost use Rattle.il_syntax.specs.declared.tree.Config.{Config};
ghost use Rattle.il_statics.specs.Faults.{Phase, Broken, IsExact, IsOnlyFirst};

pub use found::{Found, PhaseFault, earlier, fault_if, refusal};
pub use written::Written;

/// A law: where a phase refuses, something is broken, so a phase with memory accepts exactly where
/// nothing is.
pub fn refusal_is_exact()
    ensures { (phase : Phase) (config : Config) → IsExact (Broken phase config) }
{}

/// A law: a configuration has at most one first fault, by its number and the offset of its place.
pub fn first_fault_is_one()
    ensures { (phase : Phase) (config : Config) → IsOnlyFirst (Broken phase config) }
{}
