/// What the machine says of a chunk.
#[derive(Clone, Copy, PartialEq, Eq)]
pub enum Verdict {
    /// It is in the grammar.
    Accept,
    /// The machine stops.
    Stop {
        /// The number of the token that it stops at, counted from 0; behind the last one the number of tokens.
        index: u32,
        /// Whether the token fits, and what it begins would be deeper than 512.
        deep: bool,
    },
}
