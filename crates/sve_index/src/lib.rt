//! The index of a design: which modules, interfaces and packages there are, and which modules are its tops.
#![tactic(auto)]

mod def;
mod designs;
mod gathered;
mod instances;
mod labels;
mod laws;
mod source;
mod whole;

pub use def::Def;
pub use laws::{instances_are_told, tops_are_told};
pub use source::FileElement;
pub use whole::{Index, index_of};
