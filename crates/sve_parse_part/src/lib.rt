//! Parts of statements and of generate constructs that hold neither (IEEE 1800-2017, 12.4 to 12.8, clause 27 and A.6).
#![tactic(auto)]

mod heads;
mod parts;

pub use heads::{ForHead, ForeachHead, for_head, foreach_head};
pub use parts::{
    DoEnd, begins_case_item, case_mark, do_end, end_label, loop_mark, optional_token,
    optional_uniqueness,
};
