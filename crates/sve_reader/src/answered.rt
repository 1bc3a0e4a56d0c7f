//! Answers that are read through memos.
ghost use Rattle.std.specs.Prelude.{◌≡◌, ℕ, false, IfOk, IfErr, OnOk, IsTrue};
ghost use Rattle.sve_store.specs.Made.{values_of};
ghost use Rattle.sve_store.specs.Values.{IsTable, IsAnswer, IsDone};
ghost use Rattle.sve_store.specs.Told.{HasStopped};
ghost use Rattle.sve_ask.specs.Sound.{Defined, AllSound};
ghost use Rattle.sve_ask.specs.Gains.{IsSettled};
ghost use Rattle.sve_ask.specs.Watched.{GaveMore};
ghost use Rattle.sve_reader.specs.Noted.{above};
ghost use Rattle.sve_reader.specs.UpToDate.{IsUpToDate, StaysUpToDate};

use crate::reader::Reader;
use std::alloc::Global;
use sve_ask::{Fresh, Lent, Watch};
use sve_io::Halt;
use sve_store::laws::{each_key_has_a_value, no_key_has_two_values};
use sve_store::{Answer, Ending};

/// The answer of a query at the files of a snapshot, within a budget, and the watch back. It reads through the memos that were
/// lent and the fresh ones, and keeps among these what it made current. It computes under the count of `kinds`, on condition
/// that these may serve for the snapshot's files. Where each key that it asks for is up to date it computes nothing, and where it
/// is done, each computed key that it asks for is up to date.
///
/// It is stopped by the first number above the snapshot's revision that the watch gives in this call, and by no other. Where
/// it is answered, the watch gave none.
///
/// # Errors
/// It was stopped, or there was no memory.
pub fn read_answer<K: Ending, W: Watch>(
    alloc: Global,
    kinds: &mut K,
    lent: &Lent<K>,
    query: &K::Query,
    budget: u32,
    fresh: &mut Fresh<K>,
    watch: W,
) -> (Result<Answer, Halt>, W)
    requires fits { IsTrue (K.fits kinds.old lent.now.snapshot.files) }
    requires sound { ∥ AllSound (record { cmp = K.Key.cmp; given = K.given; make = K.make; ranked = K.ranked; serves = K.serves }) lent.now.snapshot.history fresh.old.memos ∥₁ }
    requires settled { ∥ IsSettled (record { cmp = K.Key.cmp; given = K.given; make = K.make; ranked = K.ranked; serves = K.serves }) lent.now.snapshot.files lent.now.snapshot.revision fresh.old.memos ∥₁ }
    ensures fits { IsTrue (K.fits kinds.new lent.now.snapshot.files) }
    ensures sound { ∥ AllSound (record { cmp = K.Key.cmp; given = K.given; make = K.make; ranked = K.ranked; serves = K.serves }) lent.now.snapshot.history fresh.new.memos ∥₁ }
    ensures settled { ∥ IsSettled (record { cmp = K.Key.cmp; given = K.given; make = K.make; ranked = K.ranked; serves = K.serves }) lent.now.snapshot.files lent.now.snapshot.revision fresh.new.memos ∥₁ }
    ensures answer { IfOk result.0 (λ answer. IsAnswer K.Key.cmp (values_of (K.given lent.now.snapshot.files)) K.make K.answers_over query.now budget answer) }
    ensures quiet { (table : K.Key → ℕ → K.Value) → IsTable K.Key.cmp (values_of (K.given lent.now.snapshot.files)) K.make table → ((k : K.Key) (f : ℕ) → K.asks_over table query.now budget k f → IsUpToDate (record { cmp = K.Key.cmp; given = K.given; make = K.make; ranked = K.ranked; serves = K.serves }) lent.now.snapshot.files fresh.old.memos lent.now.memos k f) → K.counted kinds.new ≡ K.counted kinds.old }
    ensures done { (table : K.Key → ℕ → K.Value) → IsTable K.Key.cmp (values_of (K.given lent.now.snapshot.files)) K.make table → IfOk result.0 (λ answer. IsDone answer → (k : K.Key) (f : ℕ) → K.is_input k ≡ false → K.asks_over table query.now budget k f → IsUpToDate (record { cmp = K.Key.cmp; given = K.given; make = K.make; ranked = K.ranked; serves = K.serves }) lent.now.snapshot.files fresh.new.memos lent.now.memos k f) }
    ensures still { StaysUpToDate (record { cmp = K.Key.cmp; given = K.given; make = K.make; ranked = K.ranked; serves = K.serves }) lent.now.snapshot.files lent.now.memos fresh.old.memos fresh.new.memos }
    ensures gave { GaveMore (W.gave watch) (W.gave result.1) }
    ensures stopped { IfErr result.0 (HasStopped (above lent.now.snapshot.revision (W.gave watch)) (above lent.now.snapshot.revision (W.gave result.1))) }
    ensures went { OnOk result.0 (above lent.now.snapshot.revision (W.gave result.1) ≡ above lent.now.snapshot.revision (W.gave watch)) }
{
    each_key_has_a_value::<K>();
    no_key_has_two_values::<K>();
    let mut from = Reader::new(&mut *kinds, lent, &mut *fresh, watch);
    let answer = K::answer(alloc, query, budget, &mut from);
    let watch = from.end();
    (answer, watch)
}
