//! What declarations and statements of a module or an interface leave in the scope in which they stand, each with an exact count: the
//! nodes of its text are counted first, over what is known where it begins, and then it leaves what it leaves (IEEE 1800-2017, 6.7, 6.8,
//! 6.18, 6.20, 9.2 and 13.4).
#![tactic(auto)]

mod declarations;
mod procedures;

pub use declarations::{data_in, nets_in, parameters_in, typedef_in, variables_in};
pub use procedures::{function_in, statement_in};
