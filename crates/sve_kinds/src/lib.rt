//! The kinds of key, each computed over an object that tells the values of other keys. All is proved over any count of
//! values whose keys and values are these.
#![tactic(auto)]

mod asking;
mod expanding;
mod indexing;
mod making;

pub use asking::{ask, ask_chunks, ask_element, ask_text, ask_tokens};
pub use expanding::expansion;
pub use making::made;
