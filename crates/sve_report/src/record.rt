use sve_bytes::List;
use sve_text::Why;

/// What a client's command was told.
#[derive(Drop)]
pub enum Record {
    /// The commit made this revision; revisions count from 1.
    Accepted { r: u64 },
    /// The commit was refused on the files of this revision: the edit of this number, counted from 1, has this reason.
    Refused { r: u64, edit: u32, why: Why },
    /// The ask was answered by these lines at this revision, 0 being that of the opening files. A line is without the
    /// line feed that ends it.
    Answered { r: u64, lines: List<List<u8>> },
    /// The ask was stopped at revision `base`, since revision `newer`, a later one, had come.
    Cancelled { base: u64, newer: u64 },
    /// The ask costs more than this budget at this revision.
    Spent { r: u64, budget: u32 },
}
