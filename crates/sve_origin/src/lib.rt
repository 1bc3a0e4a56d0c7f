//! Bytes that know where they come from: what the preprocessor writes and the lexer reads.
#![tactic(auto)]

mod expanded;
mod laws;
mod output;
mod runs;
mod segment;

pub use expanded::Expanded;
pub use laws::segment_by_segment;
pub use output::Output;
pub use segment::Segment;
