//! Parsers of assignments and of their left sides (IEEE 1800-2017, A.6.2 and A.8.5).
#![tactic(auto)]

mod changes;
mod left_sides;

pub use changes::{assignment_mark, change, statement_tail, step_mark};
pub use left_sides::{left_concatenation, left_side};
