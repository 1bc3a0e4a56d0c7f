//! Names in constant expressions, with what is applied to them: selects, calls and casts, by what their parts mean.
#![tactic(auto)]

mod naming;
mod path;
mod steps;

pub use naming::{called, cast_after, named, named_bits, stepped};
pub use steps::{Made, Step};
