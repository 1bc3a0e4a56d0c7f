//! Instances among the items of a body, as steps of its plan (IEEE 1800-2017, 23.3).
#![tactic(auto)]

mod instancing;

pub use instancing::instances;
