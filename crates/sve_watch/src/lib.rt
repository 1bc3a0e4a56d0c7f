//! Asks over a snapshot that read through memos: one that is answered whatever comes, and one that looks at the board and
//! stops where it sees a later revision. Neither waits for anybody.
#![tactic(auto)]

mod begun;
mod latest;
mod looks;
mod pinned;

pub use latest::latest_answer;
pub use pinned::pinned_answer;
