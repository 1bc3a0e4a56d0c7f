//! Which form a statement and an item of a block has, and what of them holds no statement (IEEE 1800-2017, A.2.8 and A.6).
#![tactic(auto)]

mod declared;
mod forms;
mod plain;

pub use declared::declared_item;
pub use forms::{Declared, Form, ItemForm, Plain, item_here, statement_here};
pub use plain::plain_statement;
