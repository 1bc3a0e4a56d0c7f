//! What a body is found to have, step by step, as its text is gone over: its scopes, parameters, ports, children, implicit nets and
//! hierarchical names, and what is to be said of it (IEEE 1800-2017, clauses 6, 23, 25, 26 and 27).
#![tactic(auto)]

mod elaboration;
mod hierarchical;
mod known;
mod modports;
mod parts;
mod ports;
mod work;

pub use elaboration::Elaboration;
