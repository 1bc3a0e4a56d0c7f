//! Scopes, and what a plain name stands for in them (IEEE 1800-2017, 6.5, 23.9 and 26.3).
#![tactic(auto)]

mod declared;
mod enclosing;
mod found;
mod import;
mod interface;
mod scope;
mod shared_type;
mod spot;
mod what;

pub use declared::Declared;
pub use enclosing::Enclosing;
pub use found::{Found, Through, lookup};
pub use import::{Explicit, Wildcard};
pub use interface::{InterfaceNames, ModportNames, SharedInterface};
pub use scope::{Entered, Scope};
pub use shared_type::SharedType;
pub use spot::Spot;
pub use what::{Constant, Face, FaceName, PortFace, What};
