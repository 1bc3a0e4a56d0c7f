//! The file of a row of packages: its chunks, and its packages, each over those of the rounds in front of its own.
#![tactic(auto)]

mod elements;
mod file;

pub use elements::SEE;
pub use file::{Chunk, File, file_of};
