//! What holds of fresh memos. The clause of each function is a law, and its body does nothing.
ghost use Rattle.std.specs.Prelude.{ℕ, []};
ghost use Rattle.sve_text.specs.Files.{FilesValue};
ghost use Rattle.sve_history.specs.Histories.{HistoryValue};
ghost use Rattle.sve_ask.specs.Sound.{Defined, AllSound};
ghost use Rattle.sve_ask.specs.Gains.{IsSettled};

use sve_store::Kinds;

/// Where there is no fresh memo yet, all are sound, and they are at rest.
pub fn an_ask_may_begin<K: Kinds>()
    ensures sound { (history : HistoryValue) → ∥ AllSound (record { cmp = K.Key.cmp; given = K.given; make = K.make; ranked = K.ranked; serves = K.serves }) history [] ∥₁ }
    ensures settled { (files : FilesValue) (revision : ℕ) → ∥ IsSettled (record { cmp = K.Key.cmp; given = K.given; make = K.make; ranked = K.ranked; serves = K.serves }) files revision [] ∥₁ }
{}
