//! The units of a revision, read from their texts to elements, and what there is to say of them.
#![tactic(auto)]

mod cutting;
mod expanding;
mod file_texts;
mod front;
mod nets;
mod placing;
mod reading;
mod unit;

pub use expanding::expansion;
pub use front::tops;
pub use placing::{net_type_at, token_place};
pub use reading::{Reading, read_units};
pub use unit::Unit;
