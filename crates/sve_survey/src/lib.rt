//! A survey of a design: all its instances with their bodies, shown to a visitor (IEEE 1800-2017, 23.3).
#![tactic(auto)]

mod laws;
mod surveyed;
mod surveying;
mod unconnections;
mod visiting;

pub use laws::visits_are_the_instances;
pub use surveyed::{Surveyed, Surveyor, notes_of_instances, surveyed_instances};
pub use surveying::survey;
pub use unconnections::{Unconnections, instances_for_lint};
pub use visiting::Visitor;
