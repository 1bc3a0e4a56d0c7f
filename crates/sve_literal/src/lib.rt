//! Literals: the values of numbers and the bytes of strings, from the bytes of their tokens (IEEE 1800-2017, 5.7.1 and 5.9).
#![tactic(auto)]

mod digits;
mod escapes;
mod number;
mod text;

pub use number::{SizeFault, based, decimal, sized, unbased};
pub use text::{text_bits, unquoted};
