//! Hierarchical names of a design, over the list of its instances (IEEE 1800-2017, 23.6 and 23.8).
#![tactic(auto)]

mod bodies;
mod hierarchy;
mod paths;
mod place;
mod resolved;

pub use bodies::{Instance, instances, opened};
pub use hierarchy::Hierarchy;
pub use resolved::Resolved;
