//! Tokens: their kinds, which words are keywords, and which bytes are operators.
#![tactic(auto)]

mod keyword_table;
mod keywords;
mod kind;
mod lookup;
mod operators;
mod reserved;
mod token;

pub use keywords::Keyword;
pub use kind::Kind;
pub use lookup::keyword;
pub use operators::{Operator, operators_from};
pub use reserved::Reserved;
pub use token::Token;
