//! The rounds of packages: in which order the facts of packages can be found, and which packages lie on a cycle of imports or
//! lead to one (own; IEEE 1800-2017, clause 26, leaves this open).
#![tactic(auto)]

mod graph;
pub mod laws;
mod package_imports;
mod progress;
mod rounds;
mod search;
mod waiters;

pub use package_imports::PackageImports;
pub use rounds::order;
