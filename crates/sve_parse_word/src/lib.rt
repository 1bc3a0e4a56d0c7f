//! Tokens that say which of several things is meant, and rows of names: what parsers find before any expression
//! (IEEE 1800-2017, Annex A, in this profile).
#![tactic(auto)]

mod binary;
mod keywords;
mod names;
mod operators;
mod options;
mod types;

pub use binary::binary_operator;
pub use keywords::{
    case_keyword, clocked_keyword, edge, event_separator, loop_keyword, module_keyword,
    plain_keyword, uniqueness,
};
pub use names::{label, more_names, optional_label, scoped_name};
pub use operators::{assignment_operator, implication_operator, step_operator, unary_operator};
pub use options::{
    optional_direction, optional_lifetime, optional_parameter_keyword, optional_sign,
};
pub use types::{
    atom_keyword, direction, integer_keyword, lifetime, net, parameter_keyword, sign,
    vector_keyword,
};
