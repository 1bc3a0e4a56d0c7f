//! The names that assignments, events and connections use in a scope, where they are no constants (IEEE 1800-2017, 9.4.2, 10.3 and 23.3.2).
#![tactic(auto)]

mod used;

pub use used::{arguments_used, assignment_used, events_used};
