//! What instances and implicit nets leave in the scope in which they stand, as a body keeps it: the nets that uses of names declare, the
//! children, what their interface ports are given, and what is said of names that are not there (IEEE 1800-2017, 6.10, 23.3 and 25.3).
#![tactic(auto)]

mod arguments;
mod children;
mod connecting;
mod definitions;
mod faces;
mod nets;
mod saying;

pub use children::{Placed, with_child, with_no_child};
pub use definitions::{place_named, specialized_in};
pub use nets::{Implied, implied_net, net_tokens, net_tokens_of_none, stands_for_something};
pub use saying::{all_said, token_said};
