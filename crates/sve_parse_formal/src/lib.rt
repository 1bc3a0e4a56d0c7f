//! Parsers of what stands in front of the body of a function (IEEE 1800-2017, A.2.6 and A.2.7).
#![tactic(auto)]

mod functions;

pub use functions::{function_result, optional_formals};
