//! Four-state values of up to 128 bits, and every operator of constant expressions on them.
//!
//! A value is a list of bits out of 0, 1, x and z (IEEE 1800-2017, 6.3 and clause 11), and contracts speak of
//! such lists alone. The machine holds two words for it, so most operators take a few word operations.
#![tactic(auto)]

mod arithmetic;
mod bit;
mod bits;
mod bitwise;
mod evaluate;
mod logarithm;
mod moves;
mod operators;
mod reductions;
mod relations;
mod text;
mod whole;

pub use bit::Bit;
pub use bits::Bits;
pub use evaluate::{binary, unary};
pub use logarithm::clog2;
pub use moves::{choose, concat, select};
pub use operators::{Binary, Unary};
pub use reductions::truth;
pub use text::{NoMemory, print};
