// Where bytes come from.
ghost use Rattle.std.specs.Prelude.{◌≡◌, ℕ, ◌≤◌, List, [], Option, IfSome, length, take, drop};
ghost use Rattle.sve_io.specs.Faults.{HasRisen};
ghost use Rattle.sve_io.specs.Moves.{Advances, Loses};
ghost use Rattle.sve_io.specs.Reading.{bytes_moved, IfBytes, UnlessBytes, OnEnd, OnFailed, UnlessFailed};

/// What one read of a [`Source`] gave.
#[derive(Clone, Copy, Debug, PartialEq, Eq)]
pub enum Got {
    /// So many bytes, counted from 1, were put at the front of the buffer. It is 0 only where the
    /// buffer had no room.
    Bytes(usize),
    /// Nothing is left.
    End,
    /// The source failed, and counted the fault. No byte was lost.
    Failed,
}

/// Where bytes come from. It counts its own faults, so that who reads can show that an answer
/// "the source failed" has a cause.
pub trait Source {
    // The bytes that reads will give from here on, in order, where the source tells them.
    ghost left: { Self → Option (List ℕ) };

    // How often the source has failed. As a number of 64 bits it stands at its last value.
    ghost faults: { Self → ℕ };

    /// Reads once: puts the next bytes at the front of `into`, as many as suit the source and at
    /// least one where there is room and something is left. After a failure it may be called again.
    fn read(&mut self, into: &mut [u8]) -> Got
        // Bytes come off the front of what is left and stand at the front of the buffer.
        ensures size { IfBytes result (λ count. Advances count (length into.old)) }
        ensures moved { IfBytes result (λ count.
            Loses (left self.old) (left self.new) (take count into.new)) }
        ensures rest { IfSome (left self.old) (λ _.
            drop (bytes_moved result) into.new ≡ drop (bytes_moved result) into.old) }

        // The end comes only where nothing is left, and neither it nor a fault takes a byte.
        ensures end { OnEnd result (IfSome (left self.old) (λ bytes. bytes ≡ [])) }
        ensures kept { UnlessBytes result (left self.new ≡ left self.old) }

        // A fault is counted, and nothing else is.
        ensures counts { faults self.old ≤ faults self.new }
        ensures cause { OnFailed result (HasRisen (faults self.old) (faults self.new)) }
        ensures no_fault { UnlessFailed result (faults self.new ≡ faults self.old) };
}
