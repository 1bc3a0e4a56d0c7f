//! The clients of a script: each runs its commands over one session, and what it is told is its records. The records of
//! all clients are honest for the history with which the session ends.
#![tactic(auto)]

mod commands;
mod gate;
mod running;
mod script_client;
mod stop;
mod terms;
mod told;

pub use gate::{Gate, NoGate, Point};
pub use running::{Ran, run_script, told_entries};
pub use sve_clients::Order;
pub use terms::Terms;
