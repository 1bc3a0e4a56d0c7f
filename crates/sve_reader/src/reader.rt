//! Reading a snapshot through memos.
ghost use Rattle.std.specs.Prelude.{◌≡◌, [], None, IsTrue, refl};
ghost use Rattle.std.proofs.Common.{◌∙◌};
ghost use Rattle.sve_ask.specs.Sound.{Defined, AllSound};
ghost use Rattle.sve_ask.specs.Gains.{IsSettled};
ghost use Rattle.sve_ask.specs.Watched.{GaveMore};
ghost use Rattle.sve_ask.proofs.Watching.{no_more, more_then};
ghost use Rattle.sve_reader.specs.Noted.{above};
ghost use Rattle.sve_reader.specs.UpToDate.{IsUpToDate, StaysUpToDate, IsServed, stays_on};

use crate::asked::asked;
use crate::guard::Guard;
use std::alloc::Global;
use std::sync::Arc;
use sve_ask::{Fresh, Lent, Watch};
use sve_io::Halt;
use sve_store::{Ending, Fetch, Keyed};

/// Tells each key's value at the files of a snapshot. It asks for it over the memos that were lent and the fresh ones, among
/// which it keeps what it made current. So a fetch of a key that is up to date computes nothing.
///
/// A fetch is stopped by the first number above the snapshot's revision that the watch gives in it, and by no other. Where it
/// is not stopped, the watch gave none.
pub struct Reader<'a, K: Ending, W: Watch> {
    kinds: &'a mut K,
    fresh: &'a mut Fresh<K>,
    lent: &'a Lent<K>,
    guard: Guard<W>,
    ghost fits: { IsTrue (K.fits kinds.now lent.now.snapshot.files) },
    ghost sound: { ∥ AllSound (record { cmp = K.Key.cmp; given = K.given; make = K.make; ranked = K.ranked; serves = K.serves }) lent.now.snapshot.history fresh.now.memos ∥₁ },
    ghost settled: { ∥ IsSettled (record { cmp = K.Key.cmp; given = K.given; make = K.make; ranked = K.ranked; serves = K.serves }) lent.now.snapshot.files lent.now.snapshot.revision fresh.now.memos ∥₁ },
    ghost guarded: { guard.revision ≡ lent.now.snapshot.revision },
}

impl<'a, K: Ending, W: Watch> Reader<'a, K, W> {
    /// It computes under the count of `kinds`, on condition that these may serve for the snapshot's files, and that the fresh
    /// memos are sound for its history and at rest: each is verified at its revision, and current by them alone. So are none.
    pub fn new(
        kinds: &'a mut K,
        lent: &'a Lent<K>,
        fresh: &'a mut Fresh<K>,
        watch: W,
    ) -> Reader<'a, K, W>
        requires fits { IsTrue (K.fits kinds.old lent.now.snapshot.files) }
        requires sound { ∥ AllSound (record { cmp = K.Key.cmp; given = K.given; make = K.make; ranked = K.ranked; serves = K.serves }) lent.now.snapshot.history fresh.old.memos ∥₁ }
        requires settled { ∥ IsSettled (record { cmp = K.Key.cmp; given = K.given; make = K.make; ranked = K.ranked; serves = K.serves }) lent.now.snapshot.files lent.now.snapshot.revision fresh.old.memos ∥₁ }
        ensures same_kinds { result.kinds.ghost_name ≡ kinds.entry.ghost_name }
        ensures same_fresh { result.fresh.ghost_name ≡ fresh.entry.ghost_name }
        ensures kinds { result.kinds.now ≡ kinds.old }
        ensures fresh { result.fresh.now ≡ fresh.old }
        ensures lent { result.lent.now ≡ lent.now }
        ensures watch { result.guard.watch ≡ watch }
    {
        let revision = lent.snapshot().revision();
        Reader {
            kinds,
            fresh,
            lent,
            guard: Guard::new(watch, revision),
        }
    }

    /// Lets the kinds and the fresh memos go, as they are by now, and gives the watch back.
    pub fn end(self) -> W
        ensures kinds { self.exit.0.now ≡ self.entry.kinds.now }
        ensures fresh { self.exit.1.0.now ≡ self.entry.fresh.now }
        ensures watch { result ≡ self.entry.guard.watch }
    {
        let Reader {
            kinds: _,
            fresh: _,
            lent: _,
            guard,
        } = self;
        guard.into_watch()
    }
}

impl<'a, K: Ending, W: Watch> Fetch<K> for Reader<'a, K, W> {
    ghost kind = { λ s. s.kinds.now };

    ghost tells = { λ s k fuel v. IsServed (record { cmp = K.Key.cmp; given = K.given; make = K.make; ranked = K.ranked; serves = K.serves }) s.lent.now.snapshot.files K.read_at k fuel v };

    ghost keeps = { λ s t. (t.kinds.ghost_name ≡ s.kinds.ghost_name) × (t.fresh.ghost_name ≡ s.fresh.ghost_name) × (t.lent.now.snapshot ≡ s.lent.now.snapshot) × (t.lent.now.memos ≡ s.lent.now.memos) × GaveMore (W.gave s.guard.watch) (W.gave t.guard.watch) × StaysUpToDate (record { cmp = K.Key.cmp; given = K.given; make = K.make; ranked = K.ranked; serves = K.serves }) s.lent.now.snapshot.files s.lent.now.memos s.fresh.now.memos t.fresh.now.memos };

    ghost is_quiet = { λ s k fuel. IsUpToDate (record { cmp = K.Key.cmp; given = K.given; make = K.make; ranked = K.ranked; serves = K.serves }) s.lent.now.snapshot.files s.fresh.now.memos s.lent.now.memos k fuel };

    ghost remembers = { Unit {0} };

    ghost halted = { λ s. None };

    // what its watch gave above the snapshot's revision
    ghost stops = { λ s. above s.lent.now.snapshot.revision (W.gave s.guard.watch) };

    ghost asked = { λ s. None };

    fn kinds(&self) -> &K {
        self.kinds
    }

    fn tick(&mut self) {
        self.kinds.tick();
    }

    fn fetch(&mut self, alloc: Global, k: &K::Key, fuel: u32) -> Result<Arc<K::Value>, Halt> {
        asked(
            alloc,
            self.kinds,
            self.lent,
            k,
            fuel,
            self.fresh,
            &mut self.guard,
        )
    }

    ghost keeps_itself = { λ s. (refl, refl, refl, refl, no_more (W.gave s.guard.watch), λ k fuel is. is) };

    ghost keeps_on = { λ before now after first second. (second.0 ∙ first.0, second.1 ∙ first.1, second.2 ∙ first.2, second.3 ∙ first.3, more_then (W.gave before.guard.watch) (W.gave now.guard.watch) (W.gave after.guard.watch) first.4 second.4, stays_on (record { cmp = K.Key.cmp; given = K.given; make = K.make; ranked = K.ranked; serves = K.serves }) before.lent.now.snapshot now.lent.now.snapshot before.lent.now.memos now.lent.now.memos before.fresh.now.memos now.fresh.now.memos after.fresh.now.memos first.2 first.3 first.5 second.5) };
}
