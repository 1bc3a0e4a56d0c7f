//! Parsers of statements that hold no statement, and of block items that begin with a name (IEEE 1800-2017, A.2.8 and A.6).
#![tactic(auto)]

mod block_items;
mod simple_statements;

pub use block_items::{local_declaration, named_block_item};
pub use simple_statements::{
    concatenation_assignment, increment_statement, name_statement, optional_expr, return_statement,
    system_task, void_call,
};
