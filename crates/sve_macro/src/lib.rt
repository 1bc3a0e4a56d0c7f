//! Macros: their table, the actuals of a use, and what a use stands for (IEEE 1800-2017, 22.5.1).
#![tactic(auto)]

mod actual_list;
mod definition;
pub mod laws;
mod lexeme;
mod literal;
mod part;
mod piece_numbers;
mod substitution;
mod table;
mod template;

pub use actual_list::{ActualFault, actuals};
pub use definition::{Definition, Macro};
pub use literal::{escaped_len, string_len};
pub use part::{Part, part_at};
pub use substitution::{SubstFault, substitute, substitute_below};
pub use table::Table;
