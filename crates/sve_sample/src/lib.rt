//! What programs of rows of the core share: kinds whose values are the texts of files, and how rows spell opening files, and
//! what commits and asks are told.
#![tactic(auto)]

mod files;
mod showing;
mod texts;

pub use files::{files_of, text_of};
pub use showing::{show_commit, show_outcome};
pub use texts::{Content, Texts};
