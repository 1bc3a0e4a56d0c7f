//! Types by their keywords and by their names: what such a type is with its dimensions, what is wrong with it, and its cost
//! (IEEE 1800-2017, 6.11, 6.18 and 7.4).
#![tactic(auto)]

mod dimensions;
mod keyword;
mod naming;

pub use dimensions::ranges;
pub use keyword::{atom_typed, implicit_typed, sign_or, vector_typed};
pub use naming::named_typed;
pub use sve_measure::operand;
