//! Keys and their values over the files of a revision, and what reads them.
#![tactic(auto)]

mod answer;
mod fresh;
mod kinds;
mod known;
pub mod laws;
mod plain;
mod snapshot;
mod tries;

pub use answer::Answer;
pub use fresh::Fresh;
pub use kinds::{Ending, Fetch, Keyed, Kinds, Start};
pub use known::Known;
pub use plain::{Plain, plain_answer};
pub use snapshot::Snapshot;
pub use sve_io::Halt;
pub use tries::{Tried, one_try};
