//! The types and the values of parameters, by what their declaration says of the type and by what is assigned to them (IEEE 1800-2017,
//! 6.20 and 10.7).
#![tactic(auto)]

mod by_expression;
mod by_value;
mod form;

pub use by_expression::assigned;
pub use by_value::{Assigned, converted};
pub use form::{Form, Formed, form_of};
pub use sve_type_of::{Typed, declared_type, type_of, with_unpacked};
