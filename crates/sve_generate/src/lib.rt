//! Generate constructs (IEEE 1800-2017, clause 27): which construct of a scope a block belongs to, how blocks without a label are
//! named, and which values a loop goes over.
#![tactic(auto)]

mod constructs;
pub mod laws;
mod naming;
mod unrolling;

pub use constructs::{
    MAX_NESTING, block_token, is_conditional, is_nested_conditional, is_too_deep, nesting_fault,
};
pub use naming::block_names;
pub use unrolling::{LoopExpressions, unroll};
