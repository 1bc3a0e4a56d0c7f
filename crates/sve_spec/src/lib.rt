//! Specializations: a module or an interface with what its parameters and interface ports are given (IEEE 1800-2017, 23.10).
//! They are parts of keys, so there is a total order of them that tells any two apart.
#![tactic(auto)]

mod given;
mod row_order;
mod spec;
mod spec_order;
mod type_order;
mod value_order;

pub use given::Given;
pub use spec::{FaceGiven, Spec};
