//! The elaboration of a body as a plan: what it asks, what it costs, and what it finds, over the steps of what it has found
//! (IEEE 1800-2017, clauses 23, 25 and 27).
#![tactic(auto)]

pub mod laws;
mod place;
mod work;

pub use place::Place;
pub use work::Work;
