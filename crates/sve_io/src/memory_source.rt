// Sources over bytes in memory.
ghost use Rattle.std.specs.Prelude.{◌≡◌, ◌≤◌, ◌<◌, ◌↔◌, ◌++◌, [], length, min, take, drop};
ghost use Rattle.sve_io.specs.Faults.{counted, HasRisen};
ghost use Rattle.sve_io.specs.Memory.{NextFails};
ghost use Rattle.sve_io.specs.Moves.{Advances};
ghost use Rattle.sve_io.specs.Reading.{bytes_moved, IfBytes, OnFailed, UnlessFailed};

use super::reading::{Got, Source};
use std::marker::Model;

/// A source over bytes in memory that moves few bytes a call and fails where it is told to: for
/// tests of what reads.
#[derive(Drop)]
pub struct MemSource {
    bytes: Vec<u8>,
    taken: usize,
    most: usize,
    failing: Vec<u64>,
    calls: u64,
    faults: u64,
}

impl Model for MemSource {
    ghost use Rattle.std.specs.Prelude.{ℕ, ◌<◌, ◌≤◌, length, drop};
    ghost use Rattle.sve_io.specs.Memory.{SourceValue};

    ghost Value = { SourceValue };

    ghost view = { λ s. record {
      left = drop s.taken s.bytes.items;
      most = s.most;
      failing = s.failing.items;
      calls = s.calls;
      faults = s.faults;
    } };

    ghost invariant = { λ s. (s.taken ≤ length s.bytes.items) × (0 < s.most) };
}

impl MemSource {
    /// A source of `bytes`, in order. A call moves at most `most` bytes, which is at least 1. The
    /// calls whose numbers are in `failing`, in any order and counted from 1, fail. Calls past number
    /// 2^64 - 1 all have that number. It takes no memory.
    pub fn new(bytes: Vec<u8>, most: usize, failing: Vec<u64>) -> MemSource
        requires { 0 < most }
        ensures { result ≡ record {
          left = bytes.items;
          most = most;
          failing = failing.items;
          calls = 0;
          faults = 0;
        } }
    {
        MemSource {
            bytes,
            taken: 0,
            most,
            failing,
            calls: 0,
            faults: 0,
        }
    }
}

impl Source for MemSource {
    ghost use Rattle.std.specs.Prelude.{Some};

    ghost left = { λ s. Some s.left };

    ghost faults = { λ s. s.faults };

    fn read(&mut self, into: &mut [u8]) -> Got
        // A listed call fails. Any other gives the end where nothing is left, and else as many
        // bytes as the step, the buffer and what is left allow.
        ensures fails { (result ≡ Got.Failed) ↔ NextFails self.old.failing self.old.calls }
        ensures ends { (result ≡ Got.End)
            ↔ ((self.old.left ≡ []) × ¬ NextFails self.old.failing self.old.calls) }
        ensures gives { IfBytes result (λ count.
            count ≡ min self.old.most (min (length into.old) (length self.old.left))) }

        // The bytes stand at the front of the buffer, and the rest of it is as before.
        ensures buffer { into.new ≡ take (bytes_moved result) self.old.left ++ drop (bytes_moved result) into.old }
        ensures left { self.new.left ≡ drop (bytes_moved result) self.old.left }

        // Each call is counted, and so is each fault.
        ensures calls { self.new.calls ≡ counted self.old.calls }
        ensures fault { OnFailed result (self.new.faults ≡ counted self.old.faults) }
        ensures no_fault { UnlessFailed result (self.new.faults ≡ self.old.faults) }
        ensures same { (self.new.most ≡ self.old.most) × (self.new.failing ≡ self.old.failing) }

        // As any source: it goes on, and no count falls.
        ensures size { IfBytes result (λ count. Advances count (length into.old)) }
        ensures counts { self.old.faults ≤ self.new.faults }
        ensures cause { OnFailed result (HasRisen self.old.faults self.new.faults) }
    {
        let call = self.calls.saturating_add(1);
        self.calls = call;
        if self.failing.contains(&call) {
            self.faults = self.faults.saturating_add(1);
            return Got::Failed;
        }
        let left = &self.bytes[self.taken..];
        if left.is_empty() {
            return Got::End;
        }
        let count = self.most.min(into.len()).min(left.len());
        into[..count].copy_from_slice(&left[..count]);
        self.taken += count;
        Got::Bytes(count)
    }
}

#[cfg(test)]
mod tests {
    use super::*;
    use std::test::Fail;

    // No caller reaches so many calls and faults.
    #[test]
    fn counts_stand_at_their_last_value(rt: HostRuntime) -> Result<(), Fail> {
        let mut source = MemSource {
            bytes: b"a".to_vec(rt.alloc())?,
            taken: 0,
            most: 1,
            failing: [u64::MAX].to_vec(rt.alloc())?,
            calls: u64::MAX - 1,
            faults: u64::MAX,
        };
        for _ in 0..2 {
            assert_eq!(rt; source.read(&mut [0]), Got::Failed);
            assert_eq!(rt; source.calls, u64::MAX);
            assert_eq!(rt; source.faults, u64::MAX);
        }
        Ok(())
    }
}
