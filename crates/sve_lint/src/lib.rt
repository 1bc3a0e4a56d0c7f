//! Lint: rules that find something in the instances of a design, and the lines of what they found (own).
#![tactic(auto)]

mod deep;
mod finding;
mod instance;
mod lines;
mod rule;
mod running;
mod unconnected;

pub use deep::Deep;
pub use finding::lines_found;
pub use instance::{Finding, InstanceFacts, UnconnectedPort};
pub use lines::lint_lines;
pub use rule::Rule;
pub use running::run;
pub use unconnected::Unconnected;
