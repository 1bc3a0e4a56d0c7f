//! How many nodes of expressions declarations, statements and functions have, so that they can be paid for before they are evaluated: those of
//! types, of dimensions and of the values of parameters (IEEE 1800-2017, clauses 6, 7.4, 12.7.1 and 13.4). Nothing is evaluated here.
#![tactic(auto)]

mod counting;
mod declarations;
mod functions;
mod loops;
mod parameters;
mod statements;

pub use declarations::{count_data, count_nets, count_typedef, count_variables};
pub use functions::count_function;
pub use parameters::count_parameters;
pub use statements::count_statement;
