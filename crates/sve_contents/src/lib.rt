//! A scope while its text is read: what comes into it, item by item, the scopes that begin and end in that text, and what is to be
//! said of it (IEEE 1800-2017, 23.9 and 26.3). A package, the scope of a compilation unit, a module, a generate block, a function and
//! a block of statements are read alike.
#![tactic(auto)]

mod contents;
mod imported;
mod nested;
mod used;

pub use contents::{Contents, DottedName, Finished};
