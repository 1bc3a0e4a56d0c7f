//! What the tokens of a constant expression say by themselves: operators, types by their keywords, and where faults stand.
#![tactic(auto)]

mod keyword;
mod operators;
mod tokens;

pub use keyword::{keyword_fault, keyword_target, target_size};
pub use operators::{binary, implication, is_signed, unary};
pub use tokens::{empty_at, is_plain, name_token, opening_of, token_of, unsized_at};
