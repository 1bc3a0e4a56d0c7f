use sve_bytes::List;

/// What lint rules found in the instances of a design, as a report tells it behind the records (own).
#[derive(Drop)]
pub enum LintSection {
    /// The lines of what was found at this revision, 0 being that of the opening files. A line is without the line feed that
    /// ends it.
    Found { r: u64, lines: List<List<u8>> },
    /// The instances of the design at this revision cost more than this budget.
    Spent { r: u64, budget: u32 },
}
