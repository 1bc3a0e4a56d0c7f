//! The answers of queries for texts and tops, over an object that tells the values of keys.
#![tactic(auto)]

mod answering;

pub use answering::{expand_answer, file_answer, tops_answer};
