//! Definitions that ask for answers and spend fuel, as plans; what holds of every plan; and what the calls that follow one return.
#![tactic(auto)]

mod fuel;
pub mod laws;
mod stop;

pub use fuel::spend_many;
pub use stop::Stop;
pub use sve_fault::{Fuel, Halted};
pub use sve_io::Halt;
