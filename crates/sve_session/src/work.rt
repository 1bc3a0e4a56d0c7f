//! What an ask is told.
ghost use Rattle.std.specs.Prelude.{◌≡◌, ℕ, false, IfOk, IsTrue};
ghost use Rattle.sve_text.specs.declared.edit.Mode.TheVariants.{Pinned};
ghost use Rattle.sve_store.specs.Made.{values_of};
ghost use Rattle.sve_store.specs.Values.{IsTable, IsAnswer};
ghost use Rattle.sve_ask.specs.Sound.{Defined, AllSound};
ghost use Rattle.sve_ask.specs.Gains.{IsSettled};
ghost use Rattle.sve_reader.specs.UpToDate.{IsUpToDate, StaysUpToDate};
ghost use Rattle.sve_watch.specs.Looks.{HasLooked};
ghost use Rattle.sve_session.specs.Asks.{IsAnswered, IsOutcome};

use std::alloc::{AllocError, Global};
use sve_ask::{Fresh, Lent};
use sve_board::{Board, Pass};
use sve_bytes::NoMemory;
use sve_core::Outcome;
use sve_io::Halt;
use sve_store::Ending;
use sve_text::Mode;
use sve_watch::{latest_answer, pinned_answer};

/// What an ask is told at a revision that was lent.
pub(crate) fn outcome<K: Ending>(
    alloc: Global,
    board: &Board,
    lent: &Lent<K>,
    pass: &mut Pass,
    kinds: &mut K,
    query: &K::Query,
    budget: u32,
    mode: Mode,
    fresh: &mut Fresh<K>,
) -> Result<Outcome, NoMemory>
    requires board { pass.old.table ≡ board.now.table }
    requires fit { IsTrue (K.fits kinds.old lent.now.snapshot.files) }
    requires sound { ∥ AllSound (record { cmp = K.Key.cmp; given = K.given; make = K.make; ranked = K.ranked; serves = K.serves }) lent.now.snapshot.history fresh.old.memos ∥₁ }
    requires settled { ∥ IsSettled (record { cmp = K.Key.cmp; given = K.given; make = K.make; ranked = K.ranked; serves = K.serves }) lent.now.snapshot.files lent.now.snapshot.revision fresh.old.memos ∥₁ }
    ensures looked { HasLooked pass.old pass.new }
    ensures pinned { mode ≡ Pinned → pass.new ≡ pass.old }
    ensures fit { IsTrue (K.fits kinds.new lent.now.snapshot.files) }
    ensures sound { ∥ AllSound (record { cmp = K.Key.cmp; given = K.given; make = K.make; ranked = K.ranked; serves = K.serves }) lent.now.snapshot.history fresh.new.memos ∥₁ }
    ensures settled { ∥ IsSettled (record { cmp = K.Key.cmp; given = K.given; make = K.make; ranked = K.ranked; serves = K.serves }) lent.now.snapshot.files lent.now.snapshot.revision fresh.new.memos ∥₁ }
    ensures outcome { IfOk result (IsOutcome (IsAnswer K.Key.cmp (values_of (K.given lent.now.snapshot.files)) K.make K.answers_over query.now budget) lent.now.snapshot.revision budget mode pass.old pass.new) }
    ensures quiet { (table : K.Key → ℕ → K.Value) → IsTable K.Key.cmp (values_of (K.given lent.now.snapshot.files)) K.make table → ((k : K.Key) (f : ℕ) → K.asks_over table query.now budget k f → IsUpToDate (record { cmp = K.Key.cmp; given = K.given; make = K.make; ranked = K.ranked; serves = K.serves }) lent.now.snapshot.files fresh.old.memos lent.now.memos k f) → K.counted kinds.new ≡ K.counted kinds.old }
    ensures done { (table : K.Key → ℕ → K.Value) → IsTable K.Key.cmp (values_of (K.given lent.now.snapshot.files)) K.make table → IfOk result (λ told. IsAnswered told → (k : K.Key) (f : ℕ) → K.is_input k ≡ false → K.asks_over table query.now budget k f → IsUpToDate (record { cmp = K.Key.cmp; given = K.given; make = K.make; ranked = K.ranked; serves = K.serves }) lent.now.snapshot.files fresh.new.memos lent.now.memos k f) }
    ensures still { StaysUpToDate (record { cmp = K.Key.cmp; given = K.given; make = K.make; ranked = K.ranked; serves = K.serves }) lent.now.snapshot.files lent.now.memos fresh.old.memos fresh.new.memos }
{
    match mode {
        Mode::Pinned => {
            let answer = pinned_answer(alloc, lent, kinds, query, budget, fresh)?;
            Ok(Outcome::of(budget, answer))
        }
        Mode::Latest => {
            match latest_answer(alloc, board, lent, pass, kinds, query, budget, fresh) {
                Ok(answer) => Ok(Outcome::of(budget, answer)),
                Err(Halt::Stopped(newer)) => Ok(Outcome::Cancelled {
                    base: lent.snapshot().revision(),
                    newer,
                }),
                Err(Halt::NoMemory) => Err(AllocError),
            }
        }
    }
}
