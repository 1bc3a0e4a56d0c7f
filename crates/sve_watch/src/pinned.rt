//! Asks that are answered whatever comes.
ghost use Rattle.std.specs.Prelude.{◌≡◌, ℕ, false, IfOk, IsTrue};
ghost use Rattle.sve_store.specs.Made.{values_of};
ghost use Rattle.sve_store.specs.Values.{IsTable, IsAnswer, IsDone};
ghost use Rattle.sve_ask.specs.Sound.{Defined, AllSound};
ghost use Rattle.sve_ask.specs.Gains.{IsSettled};
ghost use Rattle.sve_reader.specs.UpToDate.{IsUpToDate, StaysUpToDate};

use std::alloc::{AllocError, Global};
use sve_ask::{Fresh, Lent, Never};
use sve_bytes::NoMemory;
use sve_reader::read_answer;
use sve_store::{Answer, Ending};

/// The answer of a query at the files of a snapshot, within a budget. It reads through the memos that were lent and the fresh
/// ones, and keeps among these what it made current. It computes under the count of `kinds`, on condition that these may serve
/// for the snapshot's files, and waits for nobody. Where all that it asks for is up to date it computes nothing, and where it is
/// done, all computed values that it asks for are.
///
/// # Errors
/// Only for want of memory.
pub fn pinned_answer<K: Ending>(
    alloc: Global,
    lent: &Lent<K>,
    kinds: &mut K,
    query: &K::Query,
    budget: u32,
    fresh: &mut Fresh<K>,
) -> Result<Answer, NoMemory>
    requires fit { IsTrue (K.fits kinds.old lent.now.snapshot.files) }
    requires sound { ∥ AllSound (record { cmp = K.Key.cmp; given = K.given; make = K.make; ranked = K.ranked; serves = K.serves }) lent.now.snapshot.history fresh.old.memos ∥₁ }
    requires settled { ∥ IsSettled (record { cmp = K.Key.cmp; given = K.given; make = K.make; ranked = K.ranked; serves = K.serves }) lent.now.snapshot.files lent.now.snapshot.revision fresh.old.memos ∥₁ }
    ensures fit { IsTrue (K.fits kinds.new lent.now.snapshot.files) }
    ensures sound { ∥ AllSound (record { cmp = K.Key.cmp; given = K.given; make = K.make; ranked = K.ranked; serves = K.serves }) lent.now.snapshot.history fresh.new.memos ∥₁ }
    ensures settled { ∥ IsSettled (record { cmp = K.Key.cmp; given = K.given; make = K.make; ranked = K.ranked; serves = K.serves }) lent.now.snapshot.files lent.now.snapshot.revision fresh.new.memos ∥₁ }
    ensures answer { IfOk result (λ answer. IsAnswer K.Key.cmp (values_of (K.given lent.now.snapshot.files)) K.make K.answers_over query.now budget answer) }
    ensures quiet { (table : K.Key → ℕ → K.Value) → IsTable K.Key.cmp (values_of (K.given lent.now.snapshot.files)) K.make table → ((k : K.Key) (f : ℕ) → K.asks_over table query.now budget k f → IsUpToDate (record { cmp = K.Key.cmp; given = K.given; make = K.make; ranked = K.ranked; serves = K.serves }) lent.now.snapshot.files fresh.old.memos lent.now.memos k f) → K.counted kinds.new ≡ K.counted kinds.old }
    ensures done { (table : K.Key → ℕ → K.Value) → IsTable K.Key.cmp (values_of (K.given lent.now.snapshot.files)) K.make table → IfOk result (λ answer. IsDone answer → (k : K.Key) (f : ℕ) → K.is_input k ≡ false → K.asks_over table query.now budget k f → IsUpToDate (record { cmp = K.Key.cmp; given = K.given; make = K.make; ranked = K.ranked; serves = K.serves }) lent.now.snapshot.files fresh.new.memos lent.now.memos k f) }
    ensures still { StaysUpToDate (record { cmp = K.Key.cmp; given = K.given; make = K.make; ranked = K.ranked; serves = K.serves }) lent.now.snapshot.files lent.now.memos fresh.old.memos fresh.new.memos }
{
    let (answer, _never) = read_answer(alloc, kinds, lent, query, budget, fresh, Never);
    match answer {
        Ok(answer) => Ok(answer),
        Err(_) => Err(AllocError),
    }
}
