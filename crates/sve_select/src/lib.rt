//! What selects of constants mean: places and members of a value, by its type (IEEE 1800-2017, 7.2.1, 7.4.5 and 11.5.1).
//!
//! A path of selects is a fold: it begins at a constant or at a concatenation, each select leads from a value and what its type
//! leaves to a part of them, and the end is an operand. One rule for each step; none goes down a tree.
#![tactic(auto)]

mod choice;
mod extent;
mod members;
mod part;
mod places;
mod select;

pub use choice::{Choice, between, downward, place, upward};
pub use extent::{Extent, can_be_packed, element_count, enlarged, extent_bits, type_extent};
pub use members::member;
pub use part::{Part, Rest, Selected, begun, ended, row};
pub use select::selected;
