//! What an instance gives the parameters of the module or the interface that it is of, by its overrides (IEEE 1800-2017, 23.10).
#![tactic(auto)]

mod giving;
mod laws;
mod numbered;
mod overriding;

pub use giving::{Gives, give};
pub use laws::each_parameter_is_given_something;
pub use overriding::Override;
