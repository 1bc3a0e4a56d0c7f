//! A law: threads may share the values of keys, and so the trees that these hold.
#![tactic(auto)]

mod threads;

pub use threads::may_cross_threads;
