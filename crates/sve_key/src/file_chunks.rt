ghost use Rattle.std.specs.Prelude.{◌≡◌, ◌<◌, ◌^◌, length};

use std::marker::Model;
use sve_bytes::List;
use sve_unit::Chunk;

/// The chunks of a file, in order, fewer than 2^32 (IEEE 1800-2017, A.1.2).
pub struct FileChunks {
    chunks: List<Chunk>,
}

impl Drop for FileChunks {
    fn drop(self) {
        let FileChunks { chunks: _ } = self;
    }
}

impl Model for FileChunks {
    ghost use Rattle.std.specs.Prelude.{List, ◌<◌, ◌^◌, length};
    ghost use Rattle.sve_unit.specs.declared.chunk.Chunk.{Chunk};

    ghost Value = { List Chunk };

    ghost view = { λ f. f.chunks };

    ghost invariant = { λ f. length f.chunks < 2 ^ 32 };
}

impl FileChunks {
    /// These chunks. It takes no memory.
    pub fn of(chunks: List<Chunk>) -> FileChunks
        requires { length chunks < 2 ^ 32 }
        ensures { result ≡ chunks }
    {
        FileChunks { chunks }
    }

    /// The chunks, in order. It takes no memory.
    pub fn items(&self) -> &[Chunk]
        ensures chunks { result.now ≡ self.now }
        ensures few { length result.now < 2 ^ 32 }
    {
        self.chunks.items()
    }
}
