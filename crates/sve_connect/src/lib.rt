//! How the ports of an instance are connected: which argument each one has, which nets are declared by their use, and what is wrong
//! (IEEE 1800-2017, 23.3.2, 25.3 and 6.10).
#![tactic(auto)]

mod around;
mod connecting;
mod fitting;
mod linked;
mod linking;
mod ports;

pub use around::{Around, Net, Thing};
pub use connecting::{Connected, Pair, connect};
