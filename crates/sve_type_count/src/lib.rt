//! How many nodes of expressions a written type has: those of its dimensions and of the values of its names (IEEE 1800-2017, A.2.2.1, 6.18,
//! 6.19, 7.2.1 and 7.4). They are counted, and nothing is evaluated.
#![tactic(auto)]

mod enumeration;
mod selected;
mod written;

pub use enumeration::count_dimensions;
pub use selected::count_selected_type;
pub use written::{count_declared_type, count_keyword_type, count_type};
