// Where bytes go.
ghost use Rattle.std.specs.Prelude.{◌≡◌, ℕ, ◌≤◌, List, Option, IfOk, OnOk, OnErr, length, take};
ghost use Rattle.sve_io.specs.Faults.{HasRisen};
ghost use Rattle.sve_io.specs.Moves.{Advances, Gains};

/// A sink failed, and counted the fault. It took no byte of the piece.
#[derive(Clone, Copy, Debug, PartialEq, Eq)]
pub struct Failed;

/// Where bytes go. It counts its own faults, so that who writes can show that an answer "the sink
/// failed" has a cause.
pub trait Sink {
    // The bytes that the sink has taken, in order, where it tells them.
    ghost held: { Self → Option (List ℕ) };

    // How often the sink has failed. As a number of 64 bits it stands at its last value.
    ghost faults: { Self → ℕ };

    /// Writes once: takes bytes from the front of `piece`, as many as suit the sink, and says how
    /// many. That is 0 only where the piece is empty. After a failure it may be called again.
    fn write(&mut self, piece: &[u8]) -> Result<usize, Failed>
        // The bytes taken are those at the front of the piece, and come behind what is held.
        ensures size { IfOk result (λ count. Advances count (length piece.now)) }
        ensures moved { IfOk result (λ count.
            Gains (held self.old) (held self.new) (take count piece.now)) }
        ensures kept { OnErr result (held self.new ≡ held self.old) }

        // A fault is counted, and nothing else is.
        ensures counts { faults self.old ≤ faults self.new }
        ensures cause { OnErr result (HasRisen (faults self.old) (faults self.new)) }
        ensures no_fault { OnOk result (faults self.new ≡ faults self.old) };
}
