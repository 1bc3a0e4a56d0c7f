//! The files of a revision, gathered from an object that tells the values of keys.
#![tactic(auto)]

mod gathering;
pub mod laws;
mod naming;

pub use gathering::gathered;
