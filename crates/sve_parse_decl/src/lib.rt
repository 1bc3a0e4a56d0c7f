//! Parsers of declarations, and of the headers of modules and interfaces (IEEE 1800-2017, A.1.2, A.1.3, A.2.1 and A.2.9).
#![tactic(auto)]

mod begins;
mod headers;
mod imports;
mod modports;
mod parameter_ports;
mod parameters;
mod port_types;
mod ports;
mod typedefs;

pub use headers::header;
pub use imports::{import, import_declaration};
pub use modports::{modport, modport_item};
pub use parameters::{param, parameter_declaration};
pub use typedefs::{type_declaration, typedef};
