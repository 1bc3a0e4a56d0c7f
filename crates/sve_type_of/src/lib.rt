//! The type of a written type: what its dimensions, the values of its names and its members make of it, what is wrong with it, and its
//! cost (IEEE 1800-2017, A.2.2.1, 6.11, 6.18, 6.19, 7.2.1 and 7.4).
#![tactic(auto)]

mod calls;
mod keywords;
mod said;
mod selected;
mod written;

pub use calls::{declared_type, type_of, with_unpacked};
pub use keywords::keyword_type;
pub use said::Typed;
pub use selected::selected_type;
