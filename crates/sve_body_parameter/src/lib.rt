//! Parameters of the body of a module or an interface that an instance may override, where its header has no list of parameters: what they
//! leave in its scope by what they are given, and how many nodes that evaluates (IEEE 1800-2017, 6.20.1 and 23.10).
#![tactic(auto)]

mod counting;
mod overridable;
mod value;

pub use counting::count_overridable;
pub use overridable::{Overridable, with_overridable};
