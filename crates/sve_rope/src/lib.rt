//! Texts that share what they have in common: a text after a splice takes memory for what it makes new.
#![tactic(auto)]

mod joining;
mod run;
mod splicing;
mod text;
mod threads;
mod tree;

pub use text::Text;
pub use threads::may_cross_threads;
