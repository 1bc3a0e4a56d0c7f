use sve_diag::Place;

/// A condition that is open (IEEE 1800-2017, 22.6).
#[derive(Drop)]
pub struct Condition {
    /// How many texts are open around the one in which it began.
    pub depth: usize,
    /// Where that text ends.
    pub end_place: Place,
    /// Whether the bytes around it are read.
    pub outer: bool,
    /// Whether one of its groups was taken.
    pub taken: bool,
    /// Whether the group that goes on now is read.
    pub active: bool,
    /// Whether that is the group of its `` `else ``.
    pub after_else: bool,
}
