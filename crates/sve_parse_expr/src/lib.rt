//! Expressions by recursive descent, and the parts of expressions that types, statements and items have (IEEE 1800-2017, A.8).
//! Each parser gives the tree that the grammar's reading gives, or stops where the grammar's machine stops.
#![tactic(auto)]

mod begins;
mod boxes;
mod levels;
mod lists;
mod operands;
mod operators;
mod parts;

pub use lists::{argument, argument_list, more_expressions, pattern};
pub use operands::{cast, parenthesized};
pub use operators::{boxed_expr, expr};
pub use parts::{bracket_select, dimension, dimensions, range, select, selects};
