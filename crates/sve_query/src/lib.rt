//! The kinds of key over the files of a revision, and the answers of queries over them. What lint rules find in the design of the files is passed
//! on.
#![tactic(auto)]

mod answering;
mod designs;
mod kinds;
pub mod laws;
mod lists;
mod svq;

pub use sve_design_answers::lint_section;
pub use svq::Svq;
