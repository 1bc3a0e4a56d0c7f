//! Enumerations: what their bases, the values of their names and their dimensions make of them, what is wrong with them, and their cost
//! (IEEE 1800-2017, 6.19).
#![tactic(auto)]

mod earlier;
mod enumeration;

pub use enumeration::enumeration_typed;
