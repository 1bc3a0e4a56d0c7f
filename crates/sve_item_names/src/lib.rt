//! The names that the items of a module, an interface or a generate block declare, as their text alone tells them, so that a scope
//! can be made before its items are gone over (IEEE 1800-2017, 23.9 and clause 27).
#![tactic(auto)]

mod declaration;
mod header;
mod items;
mod name;

pub use header::header_names;
pub use items::{item_names, names_of_item};
pub use name::ItemName;
