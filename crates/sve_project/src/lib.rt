//! The project of a revision: its units, the index of its elements and its packages, and over these the bodies of its design.
#![tactic(auto)]

mod elaborated;
mod lookups;
mod project;
mod reading;
mod tops;
mod world;

pub use elaborated::Elaborated;
pub use project::Project;
