//! What holds of the machine of the core. The clause of each function is a law, and its body does nothing.
ghost use Rattle.std.specs.Prelude.{ℕ, List};
ghost use Rattle.sve_store.specs.Made.{values_of};
ghost use Rattle.sve_store.specs.Values.{IsAnswer};
ghost use Rattle.sve_text.specs.Files.{FilesValue};
ghost use Rattle.sve_history.specs.Histories.{IsOpening};
ghost use Rattle.sve_memo.specs.Memos.{MemoValue};
ghost use Rattle.sve_ask.specs.Sound.{Defined};
ghost use Rattle.sve_world.specs.declared.event.EventOf.{EventOf};
ghost use Rattle.sve_seat.specs.Seats.{IsWorld};
ghost use Rattle.sve_world.specs.Machine.{WorldValue, opened, Schedule, HoldsSound};

use sve_store::Start;

/// Whatever events come, each where it may, and bring memos that are sound for the snapshot that is given back, from a world in
/// which nobody knows anything: the history is legal, each of its entries is of one of the clients, what each client was told is
/// so, and its entries are its commands that were accepted. Each memo is sound for the history, and each of those that a client
/// was lent for the history of its snapshot.
pub fn every_schedule_is_honest<K: Start, F>()
    ensures { (opening : FilesValue) (clients : ℕ) (memos_of : F → List (MemoValue K.Key K.Value)) (events : List (EventOf K.Query F)) (after : WorldValue K.Query K.Key K.Value) → IsOpening opening
        → Schedule (record { cmp = K.Key.cmp; given = K.given; make = K.make; ranked = K.ranked; serves = K.serves }) memos_of (λ files. IsAnswer K.Key.cmp (values_of (K.given files)) K.make K.answers_over) (opened opening clients) events after
        → IsWorld (λ files. IsAnswer K.Key.cmp (values_of (K.given files)) K.make K.answers_over) after.history after.seats × HoldsSound (record { cmp = K.Key.cmp; given = K.given; make = K.make; ranked = K.ranked; serves = K.serves }) after }
{}
