//! The commits that were accepted, in order, and the files of each revision that they made.
#![tactic(auto)]

mod entry;
mod history;
pub mod laws;
mod revision;
mod threads;

pub use entry::Entry;
pub use history::History;
pub use threads::may_cross_threads;
