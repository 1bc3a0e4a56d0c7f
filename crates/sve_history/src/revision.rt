//! A revision as a history holds it.
use crate::entry::Entry;
use sve_text::Files;

/// A commit, and the files that it left.
#[derive(Drop)]
pub(crate) struct Revision {
    pub(crate) entry: Entry,
    pub(crate) files: Files,
}
