//! Operands of constant expressions before their context is known (IEEE 1800-2017, 11.6 and 11.8).
//!
//! An operand has a size and a sign by itself, and a value in each context. What stands by itself is a value at once. Only the
//! operators whose operands take the size and the sign of their context wait for it, in a flat list, so that each operator of
//! an expression is applied once, whatever hangs on what.
#![tactic(auto)]

mod context;
mod evaluation;
mod operand;
mod operators;
mod pending;
mod sharing;

pub use context::{settled, spread};
pub use operand::Operand;
pub use operators::{binary, choice, unary};
