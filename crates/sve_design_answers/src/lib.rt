//! The answers of the queries about the design that some files are: one instance, all of them, what a name is declared as, or means, there, and
//! what is wrong; and what lint rules find in the instances.
#![tactic(auto)]

mod answers;
mod diagnosing;
mod finding;
mod lines;
mod linting;
mod meant;
mod naming;
mod places;
mod queries;
mod resolving;
mod tree;

pub use linting::lint_section;
pub use queries::design_answer;
