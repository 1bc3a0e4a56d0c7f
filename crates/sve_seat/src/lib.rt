//! What one client of the core knows, and when what it was told is so.
#![tactic(auto)]

mod held;
mod open;
mod seat;
mod told;

pub use held::Held;
pub use open::Open;
pub use seat::Seat;
pub use told::Told;
