//! The final types and values of the parameters of a header, in the order of its text, each over those before it (IEEE 1800-2017, 6.20
//! and 23.10).
#![tactic(auto)]

mod found;
mod known;
mod laws;
mod resolving;
mod valued;
mod within;

pub use known::Resolved;
pub use laws::{
    lists_have_all_that_can_be_overridden, no_other_overrides_are_taken,
    parameters_take_overrides_in_order,
};
pub use resolving::{Params, resolve};
