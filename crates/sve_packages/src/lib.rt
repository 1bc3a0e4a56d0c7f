//! The packages of a design, and what is found of each over those that have their turns before it (IEEE 1800-2017, clause 26).
#![tactic(auto)]

mod design_package;
mod facts;
mod imported;
mod sharing;
mod turn;
mod whole;

pub use sharing::KnownPackages;
pub use whole::{known_packages, packages};
