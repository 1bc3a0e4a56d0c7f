//! What parameters and types declare in a scope whose text is read: their types, their values, the names of their enumerations, and what
//! there is to say of them (IEEE 1800-2017, 6.18 to 6.20).
#![tactic(auto)]

mod parameters;
mod typedefs;

pub use parameters::{
    Begun, Found, Meant, Settled, all_said, found_with, in_front, kept, names_declared, separator,
    with_parameters,
};
pub use sve_scoped::Text;
pub use typedefs::with_typedef;
