//! Asks that read through memos: each value that an answer needs is asked for once, and nothing that is current is computed
//! again. All of it is proved over any kinds of key.
#![tactic(auto)]

mod answered;
mod asked;
mod guard;
pub mod laws;
mod reader;

pub use answered::read_answer;
pub use reader::Reader;
