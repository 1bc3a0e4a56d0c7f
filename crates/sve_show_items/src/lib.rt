//! What the programs of tables share that try the parsers of statements and items: functions, statements, items and whole
//! elements as text.
//!
//! Expressions, types and declarations are written as `sve_show` says. A statement that is a part of another one, or of a
//! procedure, stands in braces of its own, and so does a block of a generate construct: `if (a) {if (b) {;} else {;}}`, `if (a)
//! {begin <t> b; end}`. The statements and declarations of a list stand behind blanks. A declaration has its type in angles, so
//! `<t> u;` declares a variable and `t u();` an instance. All else is written as in the source, with blanks behind commas and
//! round operators.
#![tactic(auto)]

mod assignments;
mod elements;
mod functions;
mod items;
mod procedures;
mod simple_items;
mod simple_statements;
mod spelled;
mod statements;
mod variables;

pub use elements::write_element;
pub use functions::write_function;
pub use items::write_item;
pub use statements::write_statement;
