//! A machine over what all clients share: it says what clients are told, whatever order their steps come in.
#![tactic(auto)]

mod event;
pub mod laws;
mod seen;
mod world;

pub use event::{Event, EventOf};
pub use world::{World, step};
