//! Clients of one session, each on a thread of its own, or one after another.
#![tactic(auto)]

mod client;
mod runs;

pub use client::{Client, Ran};
pub use runs::{Ended, Order, run_clients};
