//! The names that expressions use where they are no constants: each name in the order of the text, with how it is used.
#![tactic(auto)]

mod head;
mod member;
mod resolver;
mod side;
mod walk;

pub use member::{first_member, first_selected};
pub use resolver::Resolver;
pub use side::{names_in_left_side, names_in_selected};
pub use walk::{names_in, names_in_all, names_in_arguments, names_in_dimensions, names_in_selects};
