//! What is known where an expression stands, and how many nodes an expression has.
#![tactic(auto)]

mod counting;
mod env;

pub use counting::{
    visit, visit_arguments, visit_dimensions, visit_pattern, visit_range_selects, visit_select,
    visit_selects, visit_value_ranges,
};
pub use env::Env;
