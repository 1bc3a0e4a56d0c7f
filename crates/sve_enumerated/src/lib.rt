//! The text of a declaration, looked through from its first token on: the uses of names through which imports of all names of a package
//! take effect, and the names that the enumerations of a written type declare (IEEE 1800-2017, 6.19, 7.2.1 and 26.3).
#![tactic(auto)]

mod enumeration;
mod found;
mod passed;
mod types;

pub use passed::Passed;
pub use types::{with_keyword_names, with_names};
