//! What the header of a module or an interface leaves in its scope: its imports, its parameters with their final types and values, and
//! its ports (IEEE 1800-2017, 23.2 and 26.4), with an exact count of the nodes that are evaluated.
#![tactic(auto)]

mod coming;
mod imports;
mod parameters;
mod ports;

pub use imports::with_header_imports;
pub use parameters::{HeaderParameters, with_header_parameters};
pub use ports::{HeaderPorts, with_header_ports};
