//! What a plain name stands for at the end of the way along a path: in the scope of an instance or of a generate block, and in those around
//! it.
#![tactic(auto)]

mod around;
mod located;
mod named;
mod scopes;

pub use located::{Located, Sought, Where};
pub use named::{located_at, named_at};
pub use sve_project::{Elaborated, Project};
