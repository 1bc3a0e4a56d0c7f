//! Which events may come in a world.
#![tactic(auto)]

mod allowed;

pub use allowed::allows;
