//! How a generate construct of a body begins, what it selects, and how a block of it is entered (IEEE 1800-2017, clause 27).
#![tactic(auto)]

mod beginning;
mod choosing;
mod opening;

pub use beginning::begin;
pub use choosing::{found_condition, found_item, found_values, genvar_is_wrong};
pub use opening::{is_part, opens};
