//! The ports of the module of a row, where the end of a name says whether it is that of an interface.
#![tactic(auto)]

mod endings;
mod listing;

pub use endings::ByEnding;
pub use listing::{listing_of, ports_of};
