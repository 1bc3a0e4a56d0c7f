//! The bytes that the preprocessor has still to read: a stack of texts, seen as one list of bytes.
//!
//! A use of a macro or an include puts a text before the bytes that are left. Each byte knows where it comes from, in
//! which macros' results it stands and how many includes lead to it.
#![tactic(auto)]

mod frame;
mod stack;

pub use stack::Stack;
