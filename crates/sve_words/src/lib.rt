//! The words of the command line, and what they ask for.
#![tactic(auto)]

mod digits;
mod options;
mod request;

pub use digits::{MAX_MADE, number};
pub use options::spoken;
pub use request::{Options, Spoken};
