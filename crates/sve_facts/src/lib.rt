//! What elaboration leaves of a package or of a specialization, and the trait through which the layers above read it.
#![tactic(auto)]

mod bodies;
mod facts;

pub use bodies::{Bodies, Body};
pub use facts::{BodyScope, Child, Facts, HierarchicalUse, ImplicitNet, ParameterValue, Port};
