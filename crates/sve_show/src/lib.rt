//! What the programs of tables share that try the parsers: trees of a chunk as text, the tokens of a text, and texts that are
//! repeated.
//!
//! In the text of a tree each operation stands in parentheses of its own: `a - b - c` is `((a - b) - c)`, `-a ** b` is
//! `((-a) ** b)`, `a ? b : c ? d : e` is `(a ? b : (c ? d : e))`. Parentheses of the source are written too, so `(a)` is a name
//! in parentheses, and `((a + b))` an addition in parentheses. A type stands in angles, also in an expression, and what is
//! declared behind it: `<logic [7:0]> a [2]`, `<t> a`, and without angles `a [2]`, a name without a type. All else is written
//! as in the source, with blanks behind commas.
#![tactic(auto)]

mod declarations;
mod expressions;
mod headers;
mod lexing;
mod spelled;
mod texts;
mod types;
mod writer;

pub use declarations::{
    write_declaration, write_import, write_modport, write_parameters, write_typedef,
};
pub use expressions::{
    write_arguments, write_cast, write_expression, write_parenthesized, write_selects,
};
pub use headers::write_header;
pub use lexing::tokens_of;
pub use spelled::Spelled;
pub use texts::{cut, deep_text, stop_text};
pub use types::{
    write_data_type, write_declarator, write_declared_type, write_initializer, write_type,
    write_typed_name, write_value,
};
pub use writer::{Writer, Written};
