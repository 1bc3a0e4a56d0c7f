//! What the text of a scope of a module, an interface or a generate block declares that is seen in the whole scope, before the text
//! comes to it (IEEE 1800-2017, 23.9 and clause 27).
#![tactic(auto)]

mod gathering;

pub use gathering::{Ahead, Announced, first_token, names_declared, seen_ahead};
