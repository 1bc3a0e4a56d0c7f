//! What is wrong with a constant expression, and how many of its nodes may be evaluated.
#![tactic(auto)]

mod fault;
mod fuel;

pub use fault::{Fault, Said, argument};
pub use fuel::{Fuel, Halted, spend};
