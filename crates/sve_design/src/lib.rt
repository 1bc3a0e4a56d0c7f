//! The instances of a design: the walk over all of them (IEEE 1800-2017, 23.3).
#![tactic(auto)]

mod deep;
mod laws;
mod visits;
mod walking;

pub use deep::deep_notes;
pub use laws::depths_are_within;
pub use visits::{Visit, Walk, inside, top_path};
pub use walking::{MAX_DEPTH, walk};
