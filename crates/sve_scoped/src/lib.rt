//! What declarations need where the text of a scope is read: the types and the values that stand there, what is said of them, and the names
//! that come into the scope (IEEE 1800-2017, 6.18 to 6.20, 23.9 and 26.3).
#![tactic(auto)]

mod known;
mod said;
mod unbounded;

pub use known::{
    Text, around, assigned_in, declared_in, dimension_notes, formed_in, type_in, unpacked_in,
};
pub use said::{declared_at, out_if};
pub use unbounded::{ended, endless};
