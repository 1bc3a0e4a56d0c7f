// A source over bytes in memory that never fails.
ghost use Rattle.std.specs.Prelude.{◌≡◌, ◌≢◌, ◌↔◌, ◌++◌, [], length, min, take, drop};
ghost use Rattle.sve_io.specs.Reading.{bytes_moved, IfBytes};

use super::reading::{Got, Source};
use std::marker::Model;

/// A source over bytes in memory that never fails, and gives as many bytes a call as there is room
/// for. Contracts see it as the bytes that are left.
#[derive(Drop)]
pub struct SureSource {
    bytes: Vec<u8>,
    taken: usize,
}

impl Model for SureSource {
    ghost use Rattle.std.specs.Prelude.{ℕ, List, ◌≤◌, length, drop};

    ghost Value = { List ℕ };

    ghost view = { λ s. drop s.taken s.bytes.items };

    ghost invariant = { λ s. s.taken ≤ length s.bytes.items };
}

impl SureSource {
    /// A source of `bytes`, in order. It takes no memory.
    pub fn new(bytes: Vec<u8>) -> SureSource
        ensures { result ≡ bytes.items }
    {
        SureSource { bytes, taken: 0 }
    }
}

impl Source for SureSource {
    ghost use Rattle.std.specs.Prelude.{Some};

    ghost left = { λ s. Some s };

    ghost faults = { λ _. 0 };

    fn read(&mut self, into: &mut [u8]) -> Got
        ensures never_fails { result ≢ Got.Failed }
        ensures ends { (result ≡ Got.End) ↔ (self.old ≡ []) }
        ensures gives { IfBytes result (λ count.
            count ≡ min (length into.old) (length self.old)) }
        ensures buffer { into.new ≡ take (bytes_moved result) self.old ++ drop (bytes_moved result) into.old }
        ensures left { self.new ≡ drop (bytes_moved result) self.old }
    {
        let left = &self.bytes[self.taken..];
        if left.is_empty() {
            return Got::End;
        }
        let count = into.len().min(left.len());
        into[..count].copy_from_slice(&left[..count]);
        self.taken += count;
        Got::Bytes(count)
    }
}
