//! The names that statements use in which no statement stands, those of the heads of loops, and those of events, in the order of the
//! text, each with how it is used (IEEE 1800-2017, 9.4.2, 10.4, 12.7.1, 12.8 and 13.5).
#![tactic(auto)]

mod event;
mod simple;

pub use event::names_in_events;
pub use simple::{
    names_in_each, names_in_first_assignment, names_in_for_steps, names_in_name_statement,
    names_in_optional, names_in_simple,
};
