//! The preprocessor: a file and what it includes become one expanded text (IEEE 1800-2017, clause 22).
#![tactic(auto)]

mod advance;
mod condition;
mod conditionals;
mod directives;
mod include;
mod laws;
mod name;
mod start;
mod texts;
mod uses;
mod work;

pub use laws::{done_alike, done_over_all, needs_are_asked, needs_are_untold};
pub use start::prep;
pub use sve_io::Halt;
pub use sve_origin::{Expanded, Segment};
pub use texts::Texts;
