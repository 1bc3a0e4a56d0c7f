//! Whether two values are one, wherever they lie in memory.
#![tactic(auto)]

mod kinds;
mod parts;
mod same;

pub use parts::{same_bytes, same_option};
pub use same::{Same, same_items};
