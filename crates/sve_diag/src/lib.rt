//! Diagnostics: what they say, where, in which order, and as a line of a report.
#![tactic(auto)]

mod code;
mod diag;
mod order;
mod report_line;

pub use code::Code;
pub use diag::{Diag, Note, Place};
pub use report_line::print;
