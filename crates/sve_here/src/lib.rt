//! What is known where an expression stands: the words of its chunk, the scopes that see it, and the packages (IEEE 1800-2017, 6.5,
//! 11.2.1, 23.9 and 26.3).
#![tactic(auto)]

mod here;

pub use here::Here;
