//! An instance in the scope in which it stands: the names in its connections that may make nets, how its connections connect the ports
//! of its specialization, and what they leave (IEEE 1800-2017, 6.10, 23.3 and 25.3).
#![tactic(auto)]

mod connections;
mod known;
mod unknown;

pub use connections::{Connections, connection_tokens, with_connections};
pub use unknown::{unknown_tokens, with_unknown};
