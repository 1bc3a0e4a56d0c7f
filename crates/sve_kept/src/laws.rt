//! What holds of memos beside a history. The clause of each function is a law, and its body does nothing.
ghost use Rattle.std.specs.Prelude.{◌≡◌, ℕ};
ghost use Rattle.sve_history.specs.Histories.{HistoryValue};
ghost use Rattle.sve_memo.specs.Memos.{MemoValue};
ghost use Rattle.sve_ask.specs.Sound.{Defined, IsSound};
ghost use Rattle.sve_kept.specs.Kept.{GoesOn};

use sve_store::Kinds;

/// A memo that is sound for a history is sound for each one that goes on from it.
pub fn sound_memos_stay_sound<K: Kinds>()
    ensures { (earlier later : HistoryValue) (memo : MemoValue K.Key K.Value) → GoesOn earlier later → IsSound (record { cmp = K.Key.cmp; given = K.given; make = K.make; ranked = K.ranked; serves = K.serves }) earlier memo → IsSound (record { cmp = K.Key.cmp; given = K.given; make = K.make; ranked = K.ranked; serves = K.serves }) later memo }
{}
