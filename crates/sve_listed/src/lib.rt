//! What programs of rows share that try the instances of a design and the lines of answers: bodies as rows write them, the object that
//! has them, and things that are declared.
#![tactic(auto)]

mod bodies;
mod declared;
mod reading;
mod things;
mod types;

pub use bodies::{Entry, Listed};
pub use reading::{entry, parted};
pub use things::{Unread, answer_of, path, thing};
