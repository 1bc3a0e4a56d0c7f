ghost use Rattle.std.specs.Prelude.{◌≡◌, ◌≤◌};

use crate::pending::Pending;

/// An operand: its size in bits, 1 to 128, its sign, and what its value waits for. Contracts see it by `meaning_of`.
pub struct Operand {
    /// The size by itself.
    pub(crate) width: u32,
    /// Whether it is signed by itself.
    pub(crate) signed: bool,
    /// What is left to do once the context is known.
    pub(crate) pending: Pending,
    ghost positive: { 1 ≤ width },
    ghost within: { width ≤ 128 },
}

impl Drop for Operand {
    fn drop(self) {
        let Operand {
            width: _,
            signed: _,
            pending: _,
        } = self;
    }
}

impl Operand {
    /// What is left to do once the context is known.
    pub(crate) fn into_pending(self) -> Pending
        ensures { result ≡ self.pending }
    {
        let Operand {
            width: _,
            signed: _,
            pending,
        } = self;
        pending
    }
}
