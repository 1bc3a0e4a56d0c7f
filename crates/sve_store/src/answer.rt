use sve_bytes::List;

/// What a query is answered at some files (own).
#[derive(Drop)]
pub enum Answer {
    /// These lines, each without the line feed that ends it.
    Done(List<List<u8>>),
    /// Nothing: it costs more than the budget that it was given.
    Spent,
}
