//! All that is wrong in a design: in the texts of its files, in its packages, and in the bodies of its instances.
#![tactic(auto)]

mod diagnosing;
mod gathering;
mod missing;
mod placing;
mod reading;

pub use diagnosing::diagnostics;
pub use reading::Readings;
