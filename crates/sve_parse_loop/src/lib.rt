//! Parsers of what stands in the head of a `for` loop (IEEE 1800-2017, A.6.8).
#![tactic(auto)]

mod loops;

pub use loops::{for_initialization, optional_for_steps};
