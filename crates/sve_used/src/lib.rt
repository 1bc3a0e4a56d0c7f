//! The names that expressions use where they are no constants, resolved in the scopes around (IEEE 1800-2017, 23.6, 23.9 and 26.3).
#![tactic(auto)]

mod dotted;
mod steps;
mod using;

pub use dotted::{dotted_use, selected_use, unseen_member};
pub use using::{names_used, taken_out};
