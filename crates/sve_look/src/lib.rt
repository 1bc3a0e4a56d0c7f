//! The trait through which the elaboration of a body reads elements, net types, the index, packages and ports.
#![tactic(auto)]

mod look;

pub use look::Look;
