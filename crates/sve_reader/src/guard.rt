//! A watch over one call after another.
ghost use Rattle.std.specs.Prelude.{◌≡◌, ◌≤◌, ℕ, List, ◌∷◌, length, None, IfOk, IfErr, OnOk};
ghost use Rattle.sve_ask.specs.Watched.{look_gives, HasCause};
ghost use Rattle.sve_reader.specs.Noted.{above, since, TellsSeen};

use std::snapshot;
use sve_ask::Watch;
use sve_io::Halt;

/// A watch that is asked in a call until it gives a number above a revision, which is noted. So it gives at most one such
/// number in a call, and no call in which it gave one goes on unstopped.
pub(crate) struct Guard<W: Watch> {
    pub(crate) watch: W,
    pub(crate) revision: u64,
    /// The watch as it was when the call began, of which contracts speak. It takes no bytes.
    pub(crate) begun: snapshot::Snapshot<W>,
    pub(crate) seen: Option<u64>,
    ghost later: { length (W.gave begun.value) ≤ length (W.gave watch) },
    ghost noted: { above revision (since (W.gave begun.value) (W.gave watch)) ≡ look_gives seen },
}

impl<W: Watch> Guard<W> {
    /// A guard that notes what is above the revision.
    pub(crate) fn new(watch: W, revision: u64) -> Guard<W>
        ensures watch { result.watch ≡ watch }
        ensures revision { result.revision ≡ revision }
    {
        let begun = snapshot::Snapshot::of(&watch);
        Guard {
            watch,
            revision,
            begun,
            seen: None,
        }
    }

    /// Begins another call.
    pub(crate) fn begin(&mut self)
        ensures watch { self.new.watch ≡ self.old.watch }
        ensures revision { self.new.revision ≡ self.old.revision }
        ensures begun { self.new.begun.value ≡ self.old.watch }
    {
        self.begun = snapshot::Snapshot::of(&self.watch);
        self.seen = None;
    }

    /// What is told of a call that came to this: it was stopped where a number above the revision was noted, and only there.
    pub(crate) fn told<T: Drop>(&self, came: Result<T, Halt>) -> Result<T, Halt>
        requires { HasCause came self.now.revision (since (W.gave self.now.begun.value) (W.gave self.now.watch)) }
        ensures same { IfOk result (λ value. came ≡ Ok value) }
        ensures stopped { IfErr result (TellsSeen self.now.seen) }
        ensures went { OnOk result (self.now.seen ≡ None) }
    {
        match self.seen {
            Some(number) => Err(Halt::Stopped(number)),
            None => match came {
                Ok(value) => Ok(value),
                Err(Halt::NoMemory) => Err(Halt::NoMemory),
                Err(Halt::Stopped(_)) => unreachable!(),
            },
        }
    }

    /// The watch.
    pub(crate) fn into_watch(self) -> W
        ensures { result ≡ self.watch }
    {
        let Guard {
            watch,
            revision: _,
            begun: _,
            seen: _,
        } = self;
        watch
    }
}

impl<W: Watch> Watch for Guard<W> {
    // The revision, and how many numbers the watch had given when the call began, stand in front of those that it gave: so a
    // call that is handed the guard is known to leave them.
    ghost gave = { λ s. s.revision ∷ length (W.gave s.begun.value) ∷ W.gave s.watch };

    fn newer(&mut self) -> Option<u64> {
        if self.seen.is_some() {
            return None;
        }
        let number = self.watch.newer();
        if let Some(newer) = number
            && newer > self.revision
        {
            self.seen = number;
        }
        number
    }
}
