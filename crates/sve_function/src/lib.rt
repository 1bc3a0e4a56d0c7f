//! What functions declare in the scope of a package or of a compilation unit and in scopes of their own, what there is to say of their
//! bodies, and with them all declarations there (IEEE 1800-2017, 13.4 and clause 26).
#![tactic(auto)]

mod functions;
mod laws;
mod typing;

pub use laws::facts_follow;
pub use sve_declare::{with_parameters, with_typedef};
pub use sve_formal_data::{with_data, with_nets, with_variables};
pub use typing::Constants;
