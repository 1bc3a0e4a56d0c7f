//! The items of a body with its generate constructs and their blocks, as steps of its plan (IEEE 1800-2017, clause 27).
#![tactic(auto)]

mod walk;

pub use walk::items;
