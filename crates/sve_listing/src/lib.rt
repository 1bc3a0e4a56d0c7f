//! The lines of answers: texts of files, and lists of tops and of diagnostics.
#![tactic(auto)]

mod cut;
mod diags;
mod files;
mod opened;
mod spot;
mod tops;

pub use cut::{MAX_LISTED, shown, with_more, with_text};
pub use diags::diags_lines;
pub use files::{expanded_lines, none_lines, text_lines};
pub use tops::tops_lines;
