//! What declarations of data leave in a scope: nets and variables, with their types and the names that their first values use, and what
//! there is to say of them (IEEE 1800-2017, 6.5 to 6.8 and 23.9).
#![tactic(auto)]

mod declarations;
mod declarators;
mod kind;
mod known;

pub use declarations::{
    declared_names, name_begun, type_token, with_data, with_named_data, with_nets, with_variables,
};
pub use declarators::{declarator_after, separator};
pub use kind::DataKind;
pub use known::{scalar, selected_in};
pub use sve_scoped::{Text, around, declared_at, declared_in, ended, endless};
pub use sve_used::{dotted_use, names_used, selected_use, taken_out};
