//! Asks that stop where a later revision comes.
ghost use Rattle.std.specs.Prelude.{◌≡◌, ℕ, false, IfOk, IfErr, IsTrue, OnOk, MatchResult};
ghost use Rattle.sve_store.specs.Made.{values_of};
ghost use Rattle.sve_store.specs.Values.{IsTable, IsAnswer, IsDone};
ghost use Rattle.sve_store.specs.Told.{HasStopped};
ghost use Rattle.sve_ask.specs.Sound.{Defined, AllSound};
ghost use Rattle.sve_ask.specs.Gains.{IsSettled};
ghost use Rattle.sve_ask.specs.Watched.{GaveMore};
ghost use Rattle.sve_reader.specs.Noted.{above};
ghost use Rattle.sve_reader.specs.UpToDate.{IsUpToDate, StaysUpToDate};
ghost use Rattle.sve_watch.specs.Looks.{HasLooked, newer_than, SawNothingNewer, IsStopped};

use crate::begun::Begun;
use crate::looks::Looks;
use std::alloc::Global;
use std::marker::Brand;
use sve_ask::{Fresh, Lent, Watch};
use sve_board::{Board, Pass};
use sve_io::Halt;
use sve_reader::read_answer;
use sve_store::{Answer, Ending};

/// The answer of a query at the files of a snapshot, within a budget, unless a later revision comes. It reads through the memos
/// that were lent and the fresh ones, and keeps among these what it made current. It looks at the board before it brings a
/// value up to date, and once more before it answers, and stops with the first number that is above the snapshot's revision.
/// It computes under the count of `kinds`, on condition that these may serve for the snapshot's files, and waits for nobody.
/// Where all that it asks for is up to date it computes nothing, and where it is done, all computed values that it asks for are.
///
/// # Errors
/// A look of this call is above the snapshot's revision, or there was no memory.
pub fn latest_answer<K: Ending>(
    alloc: Global,
    board: &Board,
    lent: &Lent<K>,
    pass: &mut Pass,
    kinds: &mut K,
    query: &K::Query,
    budget: u32,
    fresh: &mut Fresh<K>,
) -> Result<Answer, Halt>
    requires board { pass.old.table ≡ board.now.table }
    requires fit { IsTrue (K.fits kinds.old lent.now.snapshot.files) }
    requires sound { ∥ AllSound (record { cmp = K.Key.cmp; given = K.given; make = K.make; ranked = K.ranked; serves = K.serves }) lent.now.snapshot.history fresh.old.memos ∥₁ }
    requires settled { ∥ IsSettled (record { cmp = K.Key.cmp; given = K.given; make = K.make; ranked = K.ranked; serves = K.serves }) lent.now.snapshot.files lent.now.snapshot.revision fresh.old.memos ∥₁ }
    ensures pass { HasLooked pass.old pass.new }
    ensures fit { IsTrue (K.fits kinds.new lent.now.snapshot.files) }
    ensures sound { ∥ AllSound (record { cmp = K.Key.cmp; given = K.given; make = K.make; ranked = K.ranked; serves = K.serves }) lent.now.snapshot.history fresh.new.memos ∥₁ }
    ensures settled { ∥ IsSettled (record { cmp = K.Key.cmp; given = K.given; make = K.make; ranked = K.ranked; serves = K.serves }) lent.now.snapshot.files lent.now.snapshot.revision fresh.new.memos ∥₁ }
    ensures answer { IfOk result (λ answer. IsAnswer K.Key.cmp (values_of (K.given lent.now.snapshot.files)) K.make K.answers_over query.now budget answer) }
    ensures quiet { (table : K.Key → ℕ → K.Value) → IsTable K.Key.cmp (values_of (K.given lent.now.snapshot.files)) K.make table → ((k : K.Key) (f : ℕ) → K.asks_over table query.now budget k f → IsUpToDate (record { cmp = K.Key.cmp; given = K.given; make = K.make; ranked = K.ranked; serves = K.serves }) lent.now.snapshot.files fresh.old.memos lent.now.memos k f) → K.counted kinds.new ≡ K.counted kinds.old }
    ensures done { (table : K.Key → ℕ → K.Value) → IsTable K.Key.cmp (values_of (K.given lent.now.snapshot.files)) K.make table → IfOk result (λ answer. IsDone answer → (k : K.Key) (f : ℕ) → K.is_input k ≡ false → K.asks_over table query.now budget k f → IsUpToDate (record { cmp = K.Key.cmp; given = K.given; make = K.make; ranked = K.ranked; serves = K.serves }) lent.now.snapshot.files fresh.new.memos lent.now.memos k f) }
    ensures still { StaysUpToDate (record { cmp = K.Key.cmp; given = K.given; make = K.make; ranked = K.ranked; serves = K.serves }) lent.now.snapshot.files lent.now.memos fresh.old.memos fresh.new.memos }
    ensures looks { MatchResult result (λ _. SawNothingNewer lent.now.snapshot.revision pass.old pass.new) (IsStopped lent.now.snapshot.revision pass.old pass.new) }
    ensures first { IfErr result (HasStopped (newer_than lent.now.snapshot.revision pass.old.looks) (newer_than lent.now.snapshot.revision pass.new.looks)) }
{
    match looking_answer::<K, Brand>(alloc, board, lent, pass, kinds, query, budget, fresh) {
        Ok(answer) => {
            let newest = board.look(pass);
            if newest > lent.snapshot().revision() {
                Err(Halt::Stopped(newest))
            } else {
                Ok(answer)
            }
        }
        Err(halt) => Err(halt),
    }
}

/// The answer, unless a look before a value is brought up to date is above the snapshot's revision.
fn looking_answer<K: Ending, B: Begun>(
    alloc: Global,
    board: &Board,
    lent: &Lent<K>,
    pass: &mut Pass,
    kinds: &mut K,
    query: &K::Query,
    budget: u32,
    fresh: &mut Fresh<K>,
) -> Result<Answer, Halt>
    requires board { pass.old.table ≡ board.now.table }
    requires begun { pass.old ≡ B.pass }
    requires fit { IsTrue (K.fits kinds.old lent.now.snapshot.files) }
    requires sound { ∥ AllSound (record { cmp = K.Key.cmp; given = K.given; make = K.make; ranked = K.ranked; serves = K.serves }) lent.now.snapshot.history fresh.old.memos ∥₁ }
    requires settled { ∥ IsSettled (record { cmp = K.Key.cmp; given = K.given; make = K.make; ranked = K.ranked; serves = K.serves }) lent.now.snapshot.files lent.now.snapshot.revision fresh.old.memos ∥₁ }
    ensures pass { HasLooked pass.old pass.new }
    ensures fit { IsTrue (K.fits kinds.new lent.now.snapshot.files) }
    ensures sound { ∥ AllSound (record { cmp = K.Key.cmp; given = K.given; make = K.make; ranked = K.ranked; serves = K.serves }) lent.now.snapshot.history fresh.new.memos ∥₁ }
    ensures settled { ∥ IsSettled (record { cmp = K.Key.cmp; given = K.given; make = K.make; ranked = K.ranked; serves = K.serves }) lent.now.snapshot.files lent.now.snapshot.revision fresh.new.memos ∥₁ }
    ensures answer { IfOk result (λ answer. IsAnswer K.Key.cmp (values_of (K.given lent.now.snapshot.files)) K.make K.answers_over query.now budget answer) }
    ensures quiet { (table : K.Key → ℕ → K.Value) → IsTable K.Key.cmp (values_of (K.given lent.now.snapshot.files)) K.make table → ((k : K.Key) (f : ℕ) → K.asks_over table query.now budget k f → IsUpToDate (record { cmp = K.Key.cmp; given = K.given; make = K.make; ranked = K.ranked; serves = K.serves }) lent.now.snapshot.files fresh.old.memos lent.now.memos k f) → K.counted kinds.new ≡ K.counted kinds.old }
    ensures done { (table : K.Key → ℕ → K.Value) → IsTable K.Key.cmp (values_of (K.given lent.now.snapshot.files)) K.make table → IfOk result (λ answer. IsDone answer → (k : K.Key) (f : ℕ) → K.is_input k ≡ false → K.asks_over table query.now budget k f → IsUpToDate (record { cmp = K.Key.cmp; given = K.given; make = K.make; ranked = K.ranked; serves = K.serves }) lent.now.snapshot.files fresh.new.memos lent.now.memos k f) }
    ensures still { StaysUpToDate (record { cmp = K.Key.cmp; given = K.given; make = K.make; ranked = K.ranked; serves = K.serves }) lent.now.snapshot.files lent.now.memos fresh.old.memos fresh.new.memos }
    ensures stopped { IfErr result (HasStopped (newer_than lent.now.snapshot.revision pass.old.looks) (newer_than lent.now.snapshot.revision pass.new.looks)) }
    ensures went { OnOk result (newer_than lent.now.snapshot.revision pass.new.looks ≡ newer_than lent.now.snapshot.revision pass.old.looks) }
{
    let looks = Looks::<B>::new(&mut *pass, board);
    let mut answer = Err(Halt::NoMemory);
    let looks = read_into(alloc, kinds, lent, query, budget, fresh, looks, &mut answer);
    looks.end();
    answer
}

/// Reads the answer through a watch, and gives that back alone: what a watch borrows is known behind a call that returns nothing
/// beside it.
fn read_into<K: Ending, W: Watch>(
    alloc: Global,
    kinds: &mut K,
    lent: &Lent<K>,
    query: &K::Query,
    budget: u32,
    fresh: &mut Fresh<K>,
    watch: W,
    answer: &mut Result<Answer, Halt>,
) -> W
    requires fit { IsTrue (K.fits kinds.old lent.now.snapshot.files) }
    requires sound { ∥ AllSound (record { cmp = K.Key.cmp; given = K.given; make = K.make; ranked = K.ranked; serves = K.serves }) lent.now.snapshot.history fresh.old.memos ∥₁ }
    requires settled { ∥ IsSettled (record { cmp = K.Key.cmp; given = K.given; make = K.make; ranked = K.ranked; serves = K.serves }) lent.now.snapshot.files lent.now.snapshot.revision fresh.old.memos ∥₁ }
    ensures fit { IsTrue (K.fits kinds.new lent.now.snapshot.files) }
    ensures sound { ∥ AllSound (record { cmp = K.Key.cmp; given = K.given; make = K.make; ranked = K.ranked; serves = K.serves }) lent.now.snapshot.history fresh.new.memos ∥₁ }
    ensures settled { ∥ IsSettled (record { cmp = K.Key.cmp; given = K.given; make = K.make; ranked = K.ranked; serves = K.serves }) lent.now.snapshot.files lent.now.snapshot.revision fresh.new.memos ∥₁ }
    ensures answer { IfOk answer.new (λ told. IsAnswer K.Key.cmp (values_of (K.given lent.now.snapshot.files)) K.make K.answers_over query.now budget told) }
    ensures quiet { (table : K.Key → ℕ → K.Value) → IsTable K.Key.cmp (values_of (K.given lent.now.snapshot.files)) K.make table → ((k : K.Key) (f : ℕ) → K.asks_over table query.now budget k f → IsUpToDate (record { cmp = K.Key.cmp; given = K.given; make = K.make; ranked = K.ranked; serves = K.serves }) lent.now.snapshot.files fresh.old.memos lent.now.memos k f) → K.counted kinds.new ≡ K.counted kinds.old }
    ensures done { (table : K.Key → ℕ → K.Value) → IsTable K.Key.cmp (values_of (K.given lent.now.snapshot.files)) K.make table → IfOk answer.new (λ told. IsDone told → (k : K.Key) (f : ℕ) → K.is_input k ≡ false → K.asks_over table query.now budget k f → IsUpToDate (record { cmp = K.Key.cmp; given = K.given; make = K.make; ranked = K.ranked; serves = K.serves }) lent.now.snapshot.files fresh.new.memos lent.now.memos k f) }
    ensures still { StaysUpToDate (record { cmp = K.Key.cmp; given = K.given; make = K.make; ranked = K.ranked; serves = K.serves }) lent.now.snapshot.files lent.now.memos fresh.old.memos fresh.new.memos }
    ensures gave { GaveMore (W.gave watch) (W.gave result) }
    ensures stopped { IfErr answer.new (HasStopped (above lent.now.snapshot.revision (W.gave watch)) (above lent.now.snapshot.revision (W.gave result))) }
    ensures went { OnOk answer.new (above lent.now.snapshot.revision (W.gave result) ≡ above lent.now.snapshot.revision (W.gave watch)) }
{
    let (told, watch) = read_answer(alloc, kinds, lent, query, budget, fresh, watch);
    *answer = told;
    watch
}
