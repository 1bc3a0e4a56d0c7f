//! Parts of constant expressions of which no part is evaluated: literals, and what the profile leaves out, which is counted alone.
#![tactic(auto)]

mod left_out;
mod literal;

pub use left_out::{inside, part_selected, pattern, system_name, type_value};
pub use literal::{based, decimal, sized, text, unbased};
