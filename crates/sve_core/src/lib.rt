//! What all clients share: the history with the values that were computed over it, and one step of them for each call.
#![tactic(auto)]

mod commit;
mod shared;

pub use commit::{Commit, Outcome};
pub use shared::Core;
