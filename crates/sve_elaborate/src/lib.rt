//! The elaboration of a specialization of a module or an interface: its body, over the scope of its compilation unit and the packages that it
//! names (IEEE 1800-2017, 3.12.1, clauses 23, 26 and 27); and its ports, by its header alone.
#![tactic(auto)]

mod definitions;
mod elaborating;
mod extent;
mod heading;
pub mod laws;
mod within;

pub use elaborating::elaborate;
pub use heading::ports;
