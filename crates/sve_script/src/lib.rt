//! Sessions: their files and their clients' commands, and how they are read from bytes.
#![tactic(auto)]

mod clients;
mod limits;
mod made;
mod one_reading;
mod opening;
mod parts;
mod reading;
mod sessions;
mod threads;

pub use made::{MAX_MADE, made_session};
pub use one_reading::bytes_have_one_reading;
pub use reading::script;
pub use sessions::{BadSession, MAX_CLIENTS, MAX_COMMANDS, MAX_EDITS, Script, Which};
pub use threads::may_cross_threads;
