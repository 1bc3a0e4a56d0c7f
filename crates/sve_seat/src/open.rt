/// A snapshot that a client holds.
#[derive(Drop)]
pub struct Open<S> {
    pub snapshot: S,
    /// How many looks the client had before it.
    pub begun: usize,
    /// Whether an ask was told an outcome at it.
    pub answered: bool,
}
