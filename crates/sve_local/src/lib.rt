//! What statements leave in the scope in which they stand: the scopes that they open and close, what is declared there, and what there is
//! to say of that and of the names that they use (IEEE 1800-2017, 9.3.1, clause 12, 23.9 and 26.3).
#![tactic(auto)]

mod items;
mod within;

pub use items::items_within;
pub use within::Within;
