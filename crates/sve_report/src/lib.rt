//! What the commands of a session were told, and the report that is made of it.
#![tactic(auto)]

mod answer_lines;
mod cutting;
mod entry;
mod record;
mod reporting;
mod section;

pub use answer_lines::Lines;
pub use cutting::pieces_make_the_text;
pub use entry::Entry;
pub use record::Record;
pub use reporting::{
    linted_reports_are_read_back, report_text, report_text_with_lint, reports_are_read_back,
};
pub use section::LintSection;
