//! The questions of the elaboration of a body as steps of its plan: what each call of the object that it reads through comes to
//! there.
#![tactic(auto)]

mod asking;

pub use asking::{ask_element, ask_index, ask_net, ask_package, ask_ports};
