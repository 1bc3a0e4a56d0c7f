//! The lines of answers about what elaboration leaves: an instance, what a name is declared as, what it means, and the value of a parameter.
#![tactic(auto)]

mod declared;
mod instance;
mod line;
mod resolved;

pub use declared::{param_lines, type_lines};
pub use instance::instance_lines;
pub use line::append_name;
pub use resolved::{package_text, resolve_lines, unit_text, within_text};
