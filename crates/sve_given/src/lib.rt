//! What the programs of rows share that try constants and types: the names of a row, and what is known where its expression stands.
//!
//! `NAME=VALUE` stands for a constant, and `NAME@TYPE=VALUE` for one of this type. A value is a string in quotes, or bits as they are
//! printed: `8'd255`, `-8'sd1`, `4'b1x0z`; a name whose value is `none` has no value, of which nothing is said. `NAME:TYPE` is a type:
//! `W` of W bits, and `scalar` of one, behind which an `s` says that it is signed, and `!2` that it has two states; `byte`, `int` and
//! `integer`; a name before it; `{m TYPE|n TYPE}`, a structure; each behind dimensions `[l:r]`. Every other name is not declared: N01.
//! A call is no constant, and counts nothing.
#![tactic(auto)]

mod binding;
mod entry;
mod note;
mod scope;
mod types;

pub use binding::{entries, words_of};
pub use entry::Entry;
pub use note::note_text;
pub use scope::Scope;
