//! What the values of keys are made of, once the values that they need are there.
#![tactic(auto)]

mod elements;
mod inputs;
mod tokens;

pub use elements::{add_value, units_of};
pub use inputs::input;
pub use tokens::{chunk_tokens, file_chunks, file_reading, file_tokens};
