//! The values that a generate loop goes over, over what is known where the loop stands (IEEE 1800-2017, 27.4).
#![tactic(auto)]

mod bound;
mod stepping;
mod turning;

pub use bound::InLoop;
pub use turning::{GenerateLoop, integer_type};
