//! A law over `sve_core` and `sve_reader`: a query that was answered, and is asked again before the next commit, computes nothing,
//! once what was found for it is published. It is proved over any kinds of key.
#![tactic(auto)]

mod asked;

pub use asked::{Twice, answered, answered_twice};
