//! The tokens of an expanded text: the one list of longest lexemes.
#![tactic(auto)]

mod bytes;
mod class;
mod cursor;
mod front;
mod laws;
mod lexing;
mod scan;

pub use class::Class;
pub use laws::text_has_one_list_of_pieces;
pub use lexing::{Lexed, lex, lex_with_starts};
