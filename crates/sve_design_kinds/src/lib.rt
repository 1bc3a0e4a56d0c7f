//! What the modules and interfaces are that a definition names, in its header and by its instances, as steps of a plan (IEEE 1800-2017, 3.13,
//! 23.3.2 and 25.3).
#![tactic(auto)]

mod beginnings;
mod designs;
mod faces;
mod kinds;
mod names;
mod own;

pub use designs::{Designs, designs_named};
pub use kinds::KnownDesign;
pub use names::instantiations;
pub use own::own_names;
