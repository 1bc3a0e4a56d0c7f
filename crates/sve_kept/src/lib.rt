//! Memos that are kept beside a history: the values that all clients share, each with what it rests on. It is proved over
//! any kinds of key.
#![tactic(auto)]

mod join;
pub mod laws;
mod store;
mod threads;

pub use store::Store;
pub use threads::may_cross_threads;
