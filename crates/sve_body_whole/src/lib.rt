//! The whole of a body as steps of its plan: its header, and then its items (IEEE 1800-2017, clauses 23 and 25).
#![tactic(auto)]

mod heading;
mod whole;

pub use heading::header;
pub use whole::body;
