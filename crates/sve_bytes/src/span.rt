/// A part of a text: the bytes from `from` up to, and without, `to`, both counted in bytes from 0.
#[derive(Clone, Copy, PartialEq, Eq, PartialOrd, Ord, Hash)]
pub struct Span {
    /// The first byte of the part.
    pub from: usize,
    /// The byte after its last one.
    pub to: usize,
}
