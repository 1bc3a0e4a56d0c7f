//! The machine of the grammar, run over the grammar as a table.
//!
//! The table has one line for each rule (`expressions`, `types`, `declarations`, `statements`, `items`), under the rule's name and
//! beside its production (IEEE 1800-2017, Annex A). The machine holds a stack of parts of that table, each with its depth, and
//! takes one step at a time (`step`, `machine`).
#![tactic(auto)]

mod declarations;
mod entry;
mod expressions;
mod items;
mod machine;
mod part;
mod statements;
mod step;
mod table;
mod types;
mod verdict;

pub use machine::run;
pub use verdict::Verdict;
