//! The files of a revision, and the edits that lead from one revision to the next.
#![tactic(auto)]

mod edit;
mod files;
pub mod laws;
mod naming;
mod piece;
mod refusing;
mod revision;
mod row;
mod standing;
mod threads;
mod tree;
mod why;

pub use edit::{Edit, MAX_FILE_LEN, MAX_FILES, Mode};
pub use files::Files;
pub use naming::file_name;
pub use piece::Piece;
pub use refusing::refusal;
pub use revision::apply;
pub use sve_rope::Text;
pub use threads::may_cross_threads;
pub use why::{Refusal, Why};
