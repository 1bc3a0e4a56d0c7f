//! What names stand for where scopes and packages are known: the constants and the types that expressions name (IEEE 1800-2017,
//! 6.5, 23.9 and 26.3).
#![tactic(auto)]

mod constants;
mod known;
mod naming;

pub use constants::{first_token, type_of, value_of};
pub use known::Known;
pub use naming::{Wrong, name_at, named, package_member, text_at};
