//! What loops declare in their scopes: the variables of a `for` and of a `foreach`, with their types and the names that their first values
//! use, and what there is to say of them (IEEE 1800-2017, 12.7.1, 12.7.3 and 23.9).
#![tactic(auto)]

mod loops;

pub use loops::{with_indices, with_loop, with_named_loop};
pub use sve_data::{
    dotted_use, selected_use, taken_out, with_data, with_named_data, with_variables,
};
