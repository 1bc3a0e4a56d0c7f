//! Parsers of statements and of functions (IEEE 1800-2017, A.6, A.2.6 and A.2.8).
#![tactic(auto)]

mod cases;
mod functions;
mod loops;
mod statements;

pub use functions::function;
pub use statements::{boxed_stmt, stmt};
