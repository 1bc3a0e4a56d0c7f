//! What names around an instance stand for, by the scopes that see it and the packages: all that the connections of its ports ask for
//! (IEEE 1800-2017, 6.10, 23.3.2, 23.9, 25.3 and 26.3).
#![tactic(auto)]

mod gathering;
mod references;
mod surroundings;
mod things;

pub use references::{member_behind, reference_of};
pub use surroundings::Surroundings;
pub use things::Instances;
