//! The names of an interface, as its text alone tells them: all that its outermost scope declares, and those that its modports give
//! (IEEE 1800-2017, 25.3 and 25.5).
#![tactic(auto)]

mod modports;
mod names;

pub use names::interface_names;
