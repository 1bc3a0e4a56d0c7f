//! Items of a body that hold no other items and are no instances, as steps of its plan: declarations and procedures, and continuous
//! assignments with their implicit nets (IEEE 1800-2017, 6.10 and 10.3).
#![tactic(auto)]

mod assigning;
mod declaring;
mod plain;

pub use assigning::{assignments, implied_all};
pub use declaring::plain_item;
