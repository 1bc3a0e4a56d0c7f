//! What constant expressions mean: their sizes, signs, values and faults, and how many nodes they have (IEEE 1800-2017, 11.2.1, 11.6
//! and 11.8).
//!
//! One pass goes over an expression from below. Each part that stands by itself is evaluated at once, where it stands, so that
//! every node is visited once and every call runs once, whatever sizes hang on it.
#![tactic(auto)]

mod act;
mod functions;
mod measure;
mod naming;
mod operands;

pub use measure::operand;
pub use operands::dimension;
