//! What the formal arguments of a function declare in its scope: variables with their types, and what there is to say of them
//! (IEEE 1800-2017, 13.3, 13.5 and 23.9).
#![tactic(auto)]

mod formals;

pub use formals::with_formals;
pub use sve_data::{with_data, with_nets, with_variables};
