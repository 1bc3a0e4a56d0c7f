//! The machine of the grammar and the parsers agree about every chunk.
#![tactic(auto)]

mod judging;

pub use judging::{Judged, judge};
