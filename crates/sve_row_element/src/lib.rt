//! What the programs of rows share that read modules, interfaces and packages: the element of a text, and values, counts and what is
//! said as text.
#![tactic(auto)]

mod reading;
mod telling;

pub use reading::element_of;
pub use telling::{counted, end_text, notes_text, separate, value_text};
