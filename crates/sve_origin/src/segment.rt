use sve_diag::Place;

/// A run of an expanded text whose bytes come from one place.
pub struct Segment {
    /// The first byte of the run in the expanded text, from 0. The run ends where the next segment begins, or with
    /// the text.
    pub from: u32,
    /// Where its first byte comes from.
    pub place: Place,
    /// Whether the bytes are copied from that place on, one after the other. Else each of them comes from that very
    /// place, as the result of a macro comes from its use.
    pub copied: bool,
}

impl Drop for Segment {
    fn drop(self) {
        let Segment {
            from: _,
            place: _,
            copied: _,
        } = self;
    }
}
