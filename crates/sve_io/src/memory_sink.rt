// A sink that keeps its bytes in memory.
ghost use Rattle.std.specs.Prelude.{◌≡◌, ◌≤◌, ◌<◌, ◌↔◌, ◌⊎◌, ◌++◌, ◌-◌, [], IfOk, OnOk, OnErr, IsErr, length, min, take};
ghost use Rattle.sve_io.specs.Faults.{counted, HasRisen};
ghost use Rattle.sve_io.specs.Memory.{NextFails};
ghost use Rattle.sve_io.specs.Moves.{Advances};

use super::NoMemory;
use super::writing::{Failed, Sink};
use std::alloc::Global;
use std::marker::Model;

/// A sink that keeps what it takes in memory that it reserved before, takes few bytes a call and
/// fails where it is told to: for tests of what writes.
#[derive(Drop)]
pub struct MemSink {
    bytes: Vec<u8>,
    room: usize,
    most: usize,
    failing: Vec<u64>,
    calls: u64,
    faults: u64,
}

impl Model for MemSink {
    ghost use Rattle.std.specs.Prelude.{ℕ, ◌+◌, ◌<◌, ◌≤◌, vec_capacity, vec_len};
    ghost use Rattle.sve_io.specs.Memory.{SinkValue};

    ghost Value = { SinkValue };

    ghost view = { λ s. record {
      held = s.bytes.items;
      room = s.room;
      most = s.most;
      failing = s.failing.items;
      calls = s.calls;
      faults = s.faults;
    } };

    ghost invariant = { λ s. (vec_len s.bytes + s.room ≤ vec_capacity s.bytes) × (0 < s.most) };
}

impl MemSink {
    /// An empty sink with room for `room` bytes, which it reserves: want of memory comes here and
    /// at no write. A call takes at most `most` bytes, which is at least 1. The calls whose numbers
    /// are in `failing`, in any order and counted from 1, fail. Calls past number 2^64 - 1 all have
    /// that number.
    pub fn new(
        alloc: Global,
        most: usize,
        failing: Vec<u64>,
        room: usize,
    ) -> Result<MemSink, NoMemory>
        requires { 0 < most }
        ensures { IfOk result (λ sink.
            sink ≡ record {
              held = [];
              room = room;
              most = most;
              failing = failing.items;
              calls = 0;
              faults = 0;
            }) }
    {
        let bytes = Vec::with_capacity(alloc, room)?;
        Ok(MemSink {
            bytes,
            room,
            most,
            failing,
            calls: 0,
            faults: 0,
        })
    }

    /// The bytes that the sink has taken, in order.
    pub fn held(&self) -> &[u8]
        ensures { result.now ≡ self.now.held }
    {
        self.bytes.as_slice()
    }
}

impl Sink for MemSink {
    ghost use Rattle.std.specs.Prelude.{Some};

    ghost held = { λ s. Some s.held };

    ghost faults = { λ s. s.faults };

    fn write(&mut self, piece: &[u8]) -> Result<usize, Failed>
        // A listed call fails, and so does one that has bytes to write where no room is left. Any
        // other takes as many bytes as the step, the piece and the room allow.
        ensures fails { IsErr result ↔ (NextFails self.old.failing self.old.calls
            ⊎ ((self.old.room ≡ 0) × (0 < length piece.now))) }
        ensures takes { IfOk result (λ count.
            count ≡ min self.old.most (min (length piece.now) self.old.room)) }

        // The bytes taken come behind what was held, and use up room.
        ensures held { IfOk result (λ count. self.new.held ≡ self.old.held ++ take count piece.now) }
        ensures room { IfOk result (λ count. self.new.room ≡ self.old.room - count) }
        ensures kept { OnErr result ((self.new.held ≡ self.old.held) × (self.new.room ≡ self.old.room)) }

        // Each call is counted, and so is each fault.
        ensures calls { self.new.calls ≡ counted self.old.calls }
        ensures fault { OnErr result (self.new.faults ≡ counted self.old.faults) }
        ensures no_fault { OnOk result (self.new.faults ≡ self.old.faults) }
        ensures same { (self.new.most ≡ self.old.most) × (self.new.failing ≡ self.old.failing) }

        // As any sink: it goes on, and no count falls.
        ensures size { IfOk result (λ count. Advances count (length piece.now)) }
        ensures counts { self.old.faults ≤ self.new.faults }
        ensures cause { OnErr result (HasRisen self.old.faults self.new.faults) }
    {
        let call = self.calls.saturating_add(1);
        self.calls = call;
        if self.failing.contains(&call) || self.room == 0 && !piece.is_empty() {
            self.faults = self.faults.saturating_add(1);
            return Err(Failed);
        }
        let count = self.most.min(piece.len()).min(self.room);
        // The room was reserved, so this takes no memory.
        self.bytes.extend_from_slice(&piece[..count]).unwrap();
        self.room -= count;
        Ok(count)
    }
}

#[cfg(test)]
mod tests {
    use super::*;
    use std::test::Fail;

    // No caller reaches so many faults.
    #[test]
    fn faults_stand_at_their_last_value(rt: HostRuntime) -> Result<(), Fail> {
        let mut sink = MemSink::new(rt.alloc(), 1, Vec::new(rt.alloc()), 0)?;
        sink.faults = u64::MAX;
        assert_eq!(rt; sink.write(b"a"), Err(Failed));
        assert_eq!(rt; sink.faults, u64::MAX);
        Ok(())
    }
}
