//! The overrides of an instantiation, evaluated once for all its instances, and the specialization that they make of a definition for
//! one of these (IEEE 1800-2017, 23.10).
#![tactic(auto)]

mod argument;
mod overridden;
mod specializing;

pub use overridden::{Overridden, with_overrides};
pub use specializing::{Specialized, with_specialization};
