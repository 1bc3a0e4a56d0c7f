//! What a chunk's tree says of names beyond it: which modules and interfaces it instantiates, and which labels repeat a name.
#![tactic(auto)]

mod element;
mod item;
mod laws;
mod mention;
mod statement;

pub use element::{lacks_default, mentions};
pub use laws::{instances_are_mentioned, lacking_defaults_are_told};
pub use mention::Mention;
