//! What the elaboration of the body of a row reads: the elements of one file, the packages that are found in them, and the ports of their
//! definitions.
#![tactic(auto)]

mod world;

pub use world::World;
