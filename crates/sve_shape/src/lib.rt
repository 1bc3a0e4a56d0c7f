//! JSON values taken apart: what stands under the keys of an object, and where the first value is that is not as it
//! should be.
#![tactic(auto)]

mod member;
mod part;
mod place;

pub use member::{
    Object, has, has_five, has_only, has_two, items_under, member_count, text_under, value_under,
};
pub use part::{string_under, whole_under};
pub use place::{Shaped, Taken, below_index, below_member, fault_at, fault_here};
