//! What a client was told.
use sve_bytes::List;
use sve_report::Record;

/// What a client was told of its commands, and how many values each of them computed: one number for each record, which is 0 for
/// a commit.
#[derive(Drop)]
pub(crate) struct Told {
    pub(crate) records: List<Record>,
    pub(crate) counts: List<u64>,
}
