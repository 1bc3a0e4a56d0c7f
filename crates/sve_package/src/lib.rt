//! What is found of a package, and of the scope of a compilation unit: its items in the order of its text, each over what those in
//! front of it left (IEEE 1800-2017, 3.12.1 and clause 26).
#![tactic(auto)]

mod found;
mod items;
mod laws;
mod opening;
mod typing;
mod unit;

pub use found::{cyclic_package, package};
pub use laws::first_functions_are_ahead;
pub use typing::Typing;
pub use unit::{unit_scope, with_unit_items};
