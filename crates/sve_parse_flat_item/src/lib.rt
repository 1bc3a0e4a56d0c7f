//! Items that hold no items, and which item begins at a place (IEEE 1800-2017, A.1.4 and A.1.11). Each parser gives the tree that
//! the grammar's reading gives, or stops where the grammar's machine stops.
#![tactic(auto)]

mod begins;
mod declarations;
mod package_items;
mod processes;

pub use begins::{
    ConstructForm, DeclarationForm, ItemForm, PackageForm, ProcessForm, begins_item, enter_item,
};
pub use declarations::declaration_item;
pub use package_items::{package_item, unit_items};
pub use processes::process_item;
