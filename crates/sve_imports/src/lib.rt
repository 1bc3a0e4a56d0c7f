//! The packages that an element names: by an import, or in front of `::` (IEEE 1800-2017, 26.3).
#![tactic(auto)]

mod naming;
mod parts;

pub use naming::{imports, unit_imports};
