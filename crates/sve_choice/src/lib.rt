//! Which block of a generate `if` or `case` is selected, over what is known where the construct stands (IEEE 1800-2017, 27.5).
#![tactic(auto)]

mod condition;
mod label;
mod selection;

pub use condition::{Condition, judge_condition};
pub use selection::{Selection, select_item};
