//! What each part of a written type means, by what its dimensions and its values mean: one function for each rule (IEEE 1800-2017, 6.11,
//! 6.18, 6.19, 7.2.1 and 7.4).
//!
//! Faults are kept in the order of the text, and what is wrong is left out: a type is one whatever is wrong with it.
#![tactic(auto)]

mod members;
mod names;
mod naming;
mod noted;
mod ranges;
mod same;
mod typed;
mod values;

pub use members::{Members, member_after, no_members};
pub use names::{automatic, explicit, no_names};
pub use naming::{NamedType, named, packed, unpacked};
pub use ranges::{Ranges, no_ranges, ranged};
pub use typed::{Typed, atom, plain, vector};
pub use values::{Last, Names};
