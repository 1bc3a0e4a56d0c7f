//! Values of keys, asked for at a revision: nothing that is current is computed again. All of it is proved over any kinds
//! of key.
#![tactic(auto)]

mod cycle;
mod held;
mod lent;
mod top;
mod watch;

pub use lent::{Fresh, Lent};
pub use top::ask;
pub use watch::{Never, Watch};
