//! Parsers of declarations of nets and of variables (IEEE 1800-2017, A.2.1.3).
#![tactic(auto)]

mod declarations;

pub use declarations::{data_declaration, net_declaration, variable_declaration};
