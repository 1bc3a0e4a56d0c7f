ghost use Rattle.std.specs.Prelude.{◌≡◌, ℕ, ◌+◌, ◌<◌, ◌^◌, ◌++◌, [], length, OnOk, OnErr, if◌then◌else◌};
ghost use Rattle.std.specs.List.{All};
ghost use Rattle.sve_origin.specs.Origins.{Origin, marked, values, cells, HasOffset};
ghost use Rattle.sve_origin.specs.Segments.{Cover};

use crate::Segment;
use crate::runs::last_goes_on;
use std::alloc::{AllocError, Global};
use std::marker::Model;
use sve_bytes::{Name, NoMemory};
use sve_diag::Place;

/// A text that is being written, each byte with where it comes from. Bytes that go on from the ones before them share
/// their segment.
pub struct Output {
    bytes: Vec<u8>,
    segments: Vec<Segment>,
}

impl Drop for Output {
    fn drop(self) {
        let Output {
            bytes: _,
            segments: _,
        } = self;
    }
}

impl Model for Output {
    ghost use Rattle.std.specs.Prelude.{List};
    ghost use Rattle.sve_origin.specs.Origins.{Cell};

    ghost Value = { List Cell };

    ghost use Rattle.sve_origin.specs.Origins.{cells};
    ghost use Rattle.sve_origin.specs.Segments.{IsCovered};

    ghost view = { λ o. cells o.segments.items o.bytes.items };

    ghost invariant = { λ o. IsCovered o.segments.items o.bytes.items };
}

impl Output {
    /// The empty text. It takes no memory.
    pub fn new(alloc: Global) -> Output
        ensures { result ≡ [] }
    {
        Output {
            bytes: Vec::new(alloc),
            segments: Vec::new(alloc),
        }
    }

    /// How many bytes the text has, fewer than 2^32. It takes no memory.
    pub fn len(&self) -> u32
        ensures { result ≡ length self.now }
    {
        self.bytes.len() as u32
    }

    /// The bytes. It takes no memory.
    pub fn bytes(&self) -> &[u8]
        ensures bytes { result.now ≡ values self.now }
        ensures small { length result.now < 2 ^ 32 }
    {
        self.bytes.as_slice()
    }

    /// The segments: they rise and begin within the bytes, the first one at 0 where there are bytes. It takes no memory.
    pub fn segments(&self) -> &[Segment]
        ensures cells { cells result.now (values self.now) ≡ self.now }
        ensures cover { Cover result.now (length self.now) }
        ensures offsets { All HasOffset self.now }
    {
        self.segments.as_slice()
    }

    /// Adds a piece of at least one byte, whose first byte comes from this offset of the file. The other bytes come from
    /// the offsets behind it where the piece is copied from there, and from the same offset where it is not. No offset
    /// may pass 32 bits, and the text stays below 2^32 bytes.
    ///
    /// # Errors
    /// Only for want of memory, and the text is then as before.
    pub fn push(
        &mut self,
        piece: &[u8],
        file: &Name,
        offset: u32,
        copied: bool,
    ) -> Result<(), NoMemory>
        requires some { 0 < length piece.now }
        requires room { length self.old + length piece.now < 2 ^ 32 }
        requires offsets { offset + (if copied then length piece.now else 0) < 2 ^ 32 }
        ensures text { OnOk result
            (self.new ≡ self.old ++ marked piece.now (record { file = file.now; offset = offset; copied = copied })) }
        ensures kept { OnErr result (self.new ≡ self.old) }
    {
        let before = self.bytes.len();
        if last_goes_on(self.segments.as_slice(), before, file, offset, copied) {
            self.bytes.extend_from_slice(piece)?;
            return Ok(());
        }
        let file = file.copy()?;
        self.bytes.extend_from_slice(piece)?;
        let segment = Segment {
            from: before as u32,
            place: Place { file, offset },
            copied,
        };
        if self.segments.push(segment).is_err() {
            self.bytes.truncate(before);
            return Err(AllocError);
        }
        Ok(())
    }
}
