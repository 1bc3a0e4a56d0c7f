//! The grammar of chunks, its machine, and the words by which parsers take tokens.
#![tactic(auto)]

mod firsts;
mod stop;
mod symbol;
mod take;
mod theorems;

pub use firsts::{enter, opens_here};
pub use stop::Stop;
pub use symbol::Symbol;
pub use take::{accept, expect, is_kind, is_one_of, keyword_here, kind_here};
pub use theorems::{
    firsts_are_exact, kinds_decide, machine_has_one_run, machine_reads, tokens_are_in_order,
};
