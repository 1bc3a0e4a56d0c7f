//! What each form of expression means, by what its parts mean: one function for each rule, over operands and their faults
//! (IEEE 1800-2017, clause 11 and 6.24.1).
#![tactic(auto)]

mod cast;
mod dimension;
mod literal;
mod operator;
mod row;
mod system;
mod target;

pub use cast::{sign_cast, size_cast, type_cast};
pub use dimension::{extended, range, size};
pub use literal::{based, decimal, sized, text, unbased, value};
pub use operator::{Judged, binary, choice, inside, outside, unary};
pub use row::{Row, append, part, replication, whole};
pub use system::{SystemFunction, function, system_function, type_size};
pub use target::Target;
