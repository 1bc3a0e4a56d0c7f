//! Items of modules, interfaces and generate blocks, and the generate constructs that hold them (IEEE 1800-2017, clause 27, A.1.4
//! and A.4.2). Each parser gives the tree that the grammar's reading gives, or stops where the grammar's machine stops.
#![tactic(auto)]

mod boxes;
mod generate;

pub use generate::{item, items};
pub use sve_parse_flat_item::unit_items;
