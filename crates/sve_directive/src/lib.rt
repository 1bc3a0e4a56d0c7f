//! What stands at the head of a text that is preprocessed (IEEE 1800-2017, clause 22): bytes that
//! are copied unread, a compiler directive with its parts, or a use of a macro.
#![tactic(auto)]

mod bytes;
mod define;
mod directive;
pub mod laws;
mod name;
mod pieces;
mod reading;
mod word;

pub use directive::{
    Conditional, Directive, LocalDirective, MacroDirective, MacroName, Refusal, SourceText,
};
pub use pieces::plain_len;
pub use reading::{begins_conditional, read_directive};
