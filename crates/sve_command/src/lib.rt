//! The commands of a session's clients, and how they are read from JSON.
#![tactic(auto)]

mod asks;
mod clients;
mod commands;
mod drafts;
mod edits;
mod taking;

pub use clients::client;
pub use commands::{Command, MAX_BUDGET, Query};
pub use drafts::Draft;
pub use edits::text_of;
