//! Constant expressions: their sizes and signs, and their values, with the first fault and the exact count (IEEE 1800-2017, 11.2.1,
//! 11.6 and 11.8).
#![tactic(auto)]

mod evaluation;
mod lone;

pub use evaluation::{ConstFault, eval, size_sign};
pub use sve_measure::operand;
