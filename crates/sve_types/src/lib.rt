//! The types of declared things: their bits, states and sign, which of them are equivalent, and their text.
//!
//! A type is a tree: an enumeration holds its base and a structure its members (IEEE 1800-2017, 6.19 and 7.2). Contracts
//! see it as the data type that it stands for, without its places in memory.
#![tactic(auto)]

mod copies;
mod equivalence;
mod printing;
mod signs;
mod states;
mod ty;
mod value;
mod widths;

pub use equivalence::equivalent;
pub use printing::print;
pub use signs::signed;
pub use states::four_state;
pub use ty::{Atom, Base, Range, Ty, Vec_};
pub use value::Value;
pub use widths::width;
