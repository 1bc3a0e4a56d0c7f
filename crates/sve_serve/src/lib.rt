//! The whole program over any source and sink: a session is read, run and answered, and its report is written.
#![tactic(auto)]

pub mod laws;
mod running;
mod serving;
mod status;
mod summary;
mod texts;
mod transfer;

pub use serving::serve;
pub use status::{Status, complaint, exit_code};
pub use sve_runner::{Gate, NoGate, Point};
