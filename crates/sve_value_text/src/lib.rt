//! The text of the value of a parameter: a packed value, a string in quotes, or a type (IEEE 1800-2017, 6.20).
#![tactic(auto)]

mod printing;
mod quoted;

pub use printing::print;
