//! What is printed of a configuration by its tree: where its names are used, what it has in vain, and what the verifier knows of it.
#![tactic(auto)]

mod gathered;
pub mod global_uses;
mod lines;
pub mod names;
mod needed;
mod never;
mod range_lines;
mod range_units;
mod range_values;
mod range_variables;
pub mod source;
pub mod unit_uses;
pub mod uses;
mod warnings;
mod xref;

pub use range_units::ranges_in;
pub use warnings::warnings_text;
pub use xref::xref_in;
