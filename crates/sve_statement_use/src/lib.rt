//! The names that statements use, in the order of the text, each with how it is used, and the scopes that blocks and loops open on
//! the way (IEEE 1800-2017, clause 12 and 23.9).
#![tactic(auto)]

mod lifted;
mod scopes;
mod walk;

pub use scopes::Scopes;
pub use walk::{names_in_block_items, names_in_statement};
