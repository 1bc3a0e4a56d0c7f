//! What the definition of an element sees around it: the elements of its file in front of it, the packages that they and it name, and the
//! scope of its compilation unit (IEEE 1800-2017, 3.12.1 and 26.3).
#![tactic(auto)]

mod elements;
mod packages;
mod units;

pub use elements::{ChunkElement, elements_before};
pub use packages::add_packages_named;
pub use units::unit_of;
