use crate::Kind;
use sve_bytes::{List, Name};
use sve_diag::Place;

/// One token of a text (IEEE 1800-2017, clause 5).
#[derive(Drop)]
pub struct Token {
    /// What it is.
    pub kind: Kind,
    /// Its bytes as they stand, or the first 1,024 of them. An escaped identifier has its backslash here, and its name is
    /// what follows the backslash (5.6.1).
    pub spelling: Name,
    /// All its bytes where they are more than 1,024, else none.
    pub text: List<u8>,
    /// Where its first byte comes from.
    pub place: Place,
    /// Whether its bytes are copied from successive offsets of one file.
    pub copied: bool,
}
