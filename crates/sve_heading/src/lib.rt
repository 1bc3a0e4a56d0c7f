//! The names that the items of a package or of a compilation unit's scope declare, as their text alone tells them (IEEE 1800-2017,
//! 3.12.1 and clause 26).
#![tactic(auto)]

mod heading;
mod items;
mod types;

pub use heading::Heading;
pub use items::{headings, in_function, in_parameters, in_typedef};
pub use types::{in_declared_type, in_type_ref};
