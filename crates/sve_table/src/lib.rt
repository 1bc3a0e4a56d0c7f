//! Tables of named things: they stand in the order in which they came, no two of them have one name, and each is found by its
//! name.
#![tactic(auto)]

mod named;
mod table;

pub use named::Named;
pub use table::{Table, first_of_its_name};
