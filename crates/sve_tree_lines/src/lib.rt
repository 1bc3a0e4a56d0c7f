//! The lines of the instances of a design.
#![tactic(auto)]

mod lines;

pub use lines::tree_lines;
