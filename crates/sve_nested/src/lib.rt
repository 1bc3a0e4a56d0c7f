//! The scopes of a body while its text is gone over: its own, and those of the generate blocks that are open or have ended
//! (IEEE 1800-2017, 23.9 and clause 27). Nothing is evaluated here.
#![tactic(auto)]

mod block;
mod blocks;
mod entering;
mod genvars;
mod labels;
mod leaving;
mod nested;

pub use block::{Block, Labelled};
pub use blocks::Blocks;
pub use nested::{Nested, Scopes};
