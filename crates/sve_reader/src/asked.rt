//! One ask of a reader.
ghost use Rattle.std.specs.Prelude.{◌≡◌, false, IfOk, IfErr, OnOk, IsTrue};
ghost use Rattle.std.specs.Arc.{arc_value};
ghost use Rattle.sve_store.specs.Told.{HasStopped};
ghost use Rattle.sve_ask.specs.Sound.{Defined, AllSound};
ghost use Rattle.sve_ask.specs.Gains.{IsSettled};
ghost use Rattle.sve_ask.specs.Watched.{GaveMore};
ghost use Rattle.sve_reader.specs.Noted.{above};
ghost use Rattle.sve_reader.specs.UpToDate.{IsUpToDate, StaysUpToDate, IsServed};

use crate::guard::Guard;
use std::alloc::Global;
use std::sync::Arc;
use sve_ask::{Fresh, Lent, Watch, ask};
use sve_io::Halt;
use sve_store::Ending;

/// Asks for the value of a key, and is stopped by the first number above the snapshot's revision that the watch gives, and by
/// no other. Where it is not stopped, the watch gave none.
pub(crate) fn asked<K: Ending, W: Watch>(
    alloc: Global,
    kinds: &mut K,
    lent: &Lent<K>,
    key: &K::Key,
    fuel: u32,
    fresh: &mut Fresh<K>,
    guard: &mut Guard<W>,
) -> Result<Arc<K::Value>, Halt>
    requires fits { IsTrue (K.fits kinds.old lent.now.snapshot.files) }
    requires sound { ∥ AllSound (record { cmp = K.Key.cmp; given = K.given; make = K.make; ranked = K.ranked; serves = K.serves }) lent.now.snapshot.history fresh.old.memos ∥₁ }
    requires settled { ∥ IsSettled (record { cmp = K.Key.cmp; given = K.given; make = K.make; ranked = K.ranked; serves = K.serves }) lent.now.snapshot.files lent.now.snapshot.revision fresh.old.memos ∥₁ }
    requires guarded { guard.old.revision ≡ lent.now.snapshot.revision }
    ensures fits { IsTrue (K.fits kinds.new lent.now.snapshot.files) }
    ensures sound { ∥ AllSound (record { cmp = K.Key.cmp; given = K.given; make = K.make; ranked = K.ranked; serves = K.serves }) lent.now.snapshot.history fresh.new.memos ∥₁ }
    ensures settled { ∥ IsSettled (record { cmp = K.Key.cmp; given = K.given; make = K.make; ranked = K.ranked; serves = K.serves }) lent.now.snapshot.files lent.now.snapshot.revision fresh.new.memos ∥₁ }
    ensures guarded { guard.new.revision ≡ lent.now.snapshot.revision }
    ensures gave { GaveMore (W.gave guard.old.watch) (W.gave guard.new.watch) }
    ensures still { StaysUpToDate (record { cmp = K.Key.cmp; given = K.given; make = K.make; ranked = K.ranked; serves = K.serves }) lent.now.snapshot.files lent.now.memos fresh.old.memos fresh.new.memos }
    ensures quiet { IsUpToDate (record { cmp = K.Key.cmp; given = K.given; make = K.make; ranked = K.ranked; serves = K.serves }) lent.now.snapshot.files fresh.old.memos lent.now.memos key.now fuel → K.counted kinds.new ≡ K.counted kinds.old }
    ensures held { OnOk result (K.is_input key.now ≡ false → IsUpToDate (record { cmp = K.Key.cmp; given = K.given; make = K.make; ranked = K.ranked; serves = K.serves }) lent.now.snapshot.files fresh.new.memos lent.now.memos key.now fuel) }
    ensures value { IfOk result (λ value. IsServed (record { cmp = K.Key.cmp; given = K.given; make = K.make; ranked = K.ranked; serves = K.serves }) lent.now.snapshot.files K.read_at key.now fuel (arc_value value)) }
    ensures stopped { IfErr result (HasStopped (above lent.now.snapshot.revision (W.gave guard.old.watch)) (above lent.now.snapshot.revision (W.gave guard.new.watch))) }
    ensures went { OnOk result (above lent.now.snapshot.revision (W.gave guard.new.watch) ≡ above lent.now.snapshot.revision (W.gave guard.old.watch)) }
{
    lent.snapshot().stays_made();
    guard.begin();
    let came = ask(alloc, kinds, lent, key, fuel, fresh, guard);
    guard.told(came)
}
