//! The way along a path to an instance of a design (IEEE 1800-2017, 23.6).
#![tactic(auto)]

mod finding;
mod found;
mod laws;

pub use finding::find;
pub use found::{Find, Found};
pub use laws::{what_is_found_is_visited, what_is_found_stands_on_the_path};
