ghost use Rattle.std.specs.Prelude.{◌≡◌, IfOk};
ghost use Rattle.sve_scope.specs.Spots.{begins_by, chunk_cmp, spot, stands_before};

use std::cmp::Ordering;
use sve_bytes::{Name, NoMemory};

/// A token of a chunk of a file. Spots go by the bytes of their files' names, then by chunk, then by token, so that in the scope
/// of a compilation unit what stands before a token may stand in an earlier chunk, or in an earlier file.
#[derive(Drop)]
pub struct Spot {
    /// The name of the file.
    pub file: Name,
    /// The number of the chunk in the file, from 0.
    pub chunk: u32,
    /// The number of the token in the chunk, from 0.
    pub token: u32,
}

impl Spot {
    /// The same spot, whose name shares its bytes.
    pub fn copy(&self) -> Result<Spot, NoMemory>
        ensures { IfOk result (λ s. s ≡ self.now) }
    {
        Ok(Spot {
            file: self.file.copy()?,
            chunk: self.chunk,
            token: self.token,
        })
    }

    /// How its chunk stands to another. It takes no memory.
    pub(crate) fn chunk_order(&self, file: &Name, chunk: u32) -> Ordering
        ensures { result ≡ chunk_cmp self.now (spot file.now chunk 0) }
    {
        self.file.cmp(file).then(self.chunk.cmp(&chunk))
    }

    /// Whether it stands before a token of a chunk of a file. It takes no memory.
    pub fn is_before(&self, file: &Name, chunk: u32, token: u32) -> bool
        ensures { result ≡ stands_before self.now (spot file.now chunk token) }
    {
        self.chunk_order(file, chunk)
            .then(self.token.cmp(&token))
            .is_lt()
    }

    /// Whether its chunk is this one, or stands before it. It takes no memory.
    pub fn begins_by(&self, file: &Name, chunk: u32) -> bool
        ensures { result ≡ begins_by self.now (spot file.now chunk 0) }
    {
        self.chunk_order(file, chunk).is_le()
    }
}
