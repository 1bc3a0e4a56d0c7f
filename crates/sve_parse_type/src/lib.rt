//! Parsers of types, and of the names that are declared with them (IEEE 1800-2017, A.2.2.1 and A.2.3).
#![tactic(auto)]

mod enumerations;
mod integers;
mod names;
mod structures;
mod typed_names;

pub use names::{declaration_end, declared_name, initializer, named_type, optional_initializer};
pub use structures::{data_type, type_reference};
pub use typed_names::type_name;
