//! The element of a chunk of a file: items of the compilation unit's scope, and at most one module, interface or package behind
//! them, with the words of all its tokens (IEEE 1800-2017, 3.12.1 and A.1.2).
#![tactic(auto)]

mod designs;
mod elements;

pub use elements::element;
