//! The parameters of modules and interfaces, as their text alone tells them: which of them an instance may override, and which have a
//! value (IEEE 1800-2017, 6.20 and 23.10).
#![tactic(auto)]

mod definition;
mod formal;
mod header;
mod items;
mod laws;
mod written;

pub use definition::{formals, overridable_count};
pub use formal::{Formal, is_local_keyword, keyword_after};
pub use laws::missing_values_are_lacking_defaults;
pub use written::is_written;
