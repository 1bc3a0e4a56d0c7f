//! The ports of a header: their directions, whether they are nets, their types and their interfaces, with what a port does not say
//! taken from the one before it (IEEE 1800-2017, 23.2.2.3 and 25.3).
#![tactic(auto)]

mod heading;
mod interfaces;
mod listing;
mod manner;
mod typed;

pub use interfaces::{DesignKind, Interfaces};
pub use listing::{Listing, ports};
