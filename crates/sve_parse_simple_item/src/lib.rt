//! Parsers of the items of modules that hold neither another item nor a statement: genvars and the step of a generate loop,
//! continuous assignments, modports, and what begins with a name, which are instances and variables (IEEE 1800-2017, A.1.4,
//! A.2.1.3, A.2.9, A.4 and A.6.1).
#![tactic(auto)]

mod assignments;
mod genvars;
mod instances;
mod modports;
mod named_items;
mod variables;

pub use assignments::continuous_assign;
pub use genvars::{genvar_declaration, genvar_iteration};
pub use modports::modport_declaration;
pub use named_items::named_item;
