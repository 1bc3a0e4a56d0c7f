//! Parsers of procedures and of what they wait for (IEEE 1800-2017, A.6.2 and A.6.5).
#![tactic(auto)]

mod events;
mod procedures;

pub use procedures::{clocked_procedure, plain_procedure};
pub use sve_parse_stmt::function;
