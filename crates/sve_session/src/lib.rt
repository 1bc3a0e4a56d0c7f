//! A session: up to sixteen clients over one history. Whoever commits, begins an ask or finishes one holds a lock round
//! the core; an ask itself waits for nobody.
//!
//! What holds of the session's history is known to every client by its pass, and by the plan that the session is over.
#![tactic(auto)]

mod plan;
mod session;
mod shared;
mod work;

pub use plan::Plan;
pub use session::Session;
pub use sve_core::{Commit, Outcome};
