//! What may stop a call that computes.
ghost use Rattle.std.specs.Prelude.{◌≡◌, ◌++◌, ℕ, List, []};
ghost use Rattle.sve_ask.specs.Watched.{look_gives, IsWatched};

use sve_io::Halt;

/// Tells whether there is a later revision, at which an answer would be wanted more.
pub trait Watch {
    // The numbers that it has given, in order.
    ghost gave: { Self → List ℕ };

    /// The number of a revision that is there by now, or `None` where nothing is known. It takes no memory.
    fn newer(&mut self) -> Option<u64>
        ensures { gave self.new ≡ gave self.old ++ look_gives result };
}

/// A watch that never gives a number, so that it stops nothing.
#[derive(Drop)]
pub struct Never;

impl Watch for Never {
    ghost gave = { λ s. [] };

    fn newer(&mut self) -> Option<u64> {
        None
    }
}

/// Stops where the watch gives a number above the revision.
pub(crate) fn look<W: Watch>(watch: &mut W, revision: u64) -> Result<(), Halt>
    ensures { IsWatched result revision (W.gave watch.old) (W.gave watch.new) }
{
    match watch.newer() {
        Some(number) if number > revision => Err(Halt::Stopped(number)),
        _ => Ok(()),
    }
}
