//! Values that were computed, with what each of them rests on, and tables of them.
#![tactic(auto)]

mod memo;
mod memos;
mod tree;

pub use memo::Memo;
pub use memos::Memos;
