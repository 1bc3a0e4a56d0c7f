//! What a key is asked for by.
ghost use Rattle.std.specs.Prelude.{◌≡◌, ◌+◌, ◌≤◌, true, List, length, IfOk, IsTrue};
ghost use Rattle.std.specs.Arc.{arc_value};
ghost use Rattle.sve_text.specs.Files.{FilesValue};
ghost use Rattle.sve_ask.specs.Sound.{Defined, IsNewest, AllSound, ValueAt, HasValue};
ghost use Rattle.sve_ask.specs.Current.{found_in, overlaid, IsStill, Lacking, Serving};
ghost use Rattle.sve_ask.specs.Watched.{IsWatched, spare};
ghost use Rattle.sve_ask.specs.Gains.{InReach, IsCurrentFor, IsSettled, Makes};

use crate::cycle::{anew, bring};
use crate::held::{is_serving, keep, last, look_out, with_stamp};
use crate::lent::{Fresh, Lent};
use crate::watch::Watch;
use std::alloc::Global;
use std::sync::Arc;
use sve_io::Halt;
use sve_memo::Memos;
use sve_store::Ending;

/// The value of a key at the snapshot's revision, which serves whoever asks with this fuel. The key is made current: its
/// memo among the fresh ones is verified at this revision, and so are those of the keys that it rests on.
///
/// It computes under the count of `kinds`, on condition that these may serve for the snapshot's files. Where the key is
/// current for the fuel it computes nothing; else it computes no more values than there are keys that it makes current.
/// It never takes a memo that it has not verified at this revision.
///
/// # Errors
/// The watch gave a number above the snapshot's revision in this call, or there was no memory.
pub fn ask<K: Ending, W: Watch>(
    alloc: Global,
    kinds: &mut K,
    lent: &Lent<K>,
    key: &K::Key,
    fuel: u32,
    fresh: &mut Fresh<K>,
    watch: &mut W,
) -> Result<Arc<K::Value>, Halt>
    requires fits { IsTrue (K.fits kinds.old lent.now.snapshot.files) }
    requires fresh { ∥ AllSound (record { cmp = K.Key.cmp; given = K.given; make = K.make; ranked = K.ranked; serves = K.serves }) lent.now.snapshot.history fresh.old.memos ∥₁ }
    ensures fits { (all : FilesValue) → K.fits kinds.new all ≡ K.fits kinds.old all }
    ensures fresh { ∥ AllSound (record { cmp = K.Key.cmp; given = K.given; make = K.make; ranked = K.ranked; serves = K.serves }) lent.now.snapshot.history fresh.new.memos ∥₁ }
    ensures watch { IsWatched result lent.now.snapshot.revision (W.gave watch.old) (W.gave watch.new) }
    ensures value { IfOk result (λ value. ∥ ValueAt (record { cmp = K.Key.cmp; given = K.given; make = K.make; ranked = K.ranked; serves = K.serves }) lent.now.snapshot.history lent.now.snapshot.revision key.now fuel (K.read_at (arc_value value) fuel) ∥₁ × (K.serves (arc_value value) fuel ≡ true)) }
    ensures current { IsCurrentFor (record { cmp = K.Key.cmp; given = K.given; make = K.make; ranked = K.ranked; serves = K.serves }) lent.now.snapshot.files (overlaid K.Key.cmp fresh.old.memos lent.now.memos) key.now fuel → IsStill (K.counted kinds.old) (K.counted kinds.new) (overlaid K.Key.cmp fresh.old.memos lent.now.memos) (overlaid K.Key.cmp fresh.new.memos lent.now.memos) }
    ensures makes { IsSettled (record { cmp = K.Key.cmp; given = K.given; make = K.make; ranked = K.ranked; serves = K.serves }) lent.now.snapshot.files lent.now.snapshot.revision fresh.old.memos → ∥ ((made : List K.Key) × Makes (record { cmp = K.Key.cmp; given = K.given; make = K.make; ranked = K.ranked; serves = K.serves }) lent.now.snapshot.files lent.now.memos lent.now.snapshot.revision fuel (InReach (record { cmp = K.Key.cmp; given = K.given; make = K.make; ranked = K.ranked; serves = K.serves }) lent.now.snapshot.files (overlaid K.Key.cmp fresh.old.memos lent.now.memos) key.now fuel) fresh.old.memos fresh.new.memos made × (K.counted kinds.new ≤ K.counted kinds.old + (length made + spare result)) × IfOk result (λ value. IsCurrentFor (record { cmp = K.Key.cmp; given = K.given; make = K.make; ranked = K.ranked; serves = K.serves }) lent.now.snapshot.files (found_in K.Key.cmp fresh.new.memos) key.now fuel)) ∥₁ }
{
    lent.snapshot.stays_made();
    brought_or_again(alloc, kinds, lent, key, fuel, &mut fresh.memos, watch)
}

/// The same, over the fresh memos.
fn brought_or_again<K: Ending, W: Watch>(
    alloc: Global,
    kinds: &mut K,
    lent: &Lent<K>,
    key: &K::Key,
    fuel: u32,
    fresh: &mut Memos<K::Key, K::Value>,
    watch: &mut W,
) -> Result<Arc<K::Value>, Halt>
    requires fits { IsTrue (K.fits kinds.old lent.now.snapshot.files) }
    requires newest { IsNewest lent.now.snapshot.history lent.now.snapshot.revision lent.now.snapshot.files }
    requires lent { AllSound (record { cmp = K.Key.cmp; given = K.given; make = K.make; ranked = K.ranked; serves = K.serves }) lent.now.snapshot.history lent.now.memos }
    requires fresh { AllSound (record { cmp = K.Key.cmp; given = K.given; make = K.make; ranked = K.ranked; serves = K.serves }) lent.now.snapshot.history fresh.old }
    ensures fits { (all : FilesValue) → K.fits kinds.new all ≡ K.fits kinds.old all }
    ensures fresh { AllSound (record { cmp = K.Key.cmp; given = K.given; make = K.make; ranked = K.ranked; serves = K.serves }) lent.now.snapshot.history fresh.new }
    ensures watch { IsWatched result lent.now.snapshot.revision (W.gave watch.old) (W.gave watch.new) }
    ensures value { IfOk result (λ value. HasValue (record { cmp = K.Key.cmp; given = K.given; make = K.make; ranked = K.ranked; serves = K.serves }) lent.now.snapshot.history lent.now.snapshot.revision key.now (arc_value value) × (K.serves (arc_value value) fuel ≡ true)) }
    ensures current { IsCurrentFor (record { cmp = K.Key.cmp; given = K.given; make = K.make; ranked = K.ranked; serves = K.serves }) lent.now.snapshot.files (overlaid K.Key.cmp fresh.old lent.now.memos) key.now fuel → IsStill (K.counted kinds.old) (K.counted kinds.new) (overlaid K.Key.cmp fresh.old lent.now.memos) (overlaid K.Key.cmp fresh.new lent.now.memos) }
    ensures makes { IsSettled (record { cmp = K.Key.cmp; given = K.given; make = K.make; ranked = K.ranked; serves = K.serves }) lent.now.snapshot.files lent.now.snapshot.revision fresh.old → (made : List K.Key) × Makes (record { cmp = K.Key.cmp; given = K.given; make = K.make; ranked = K.ranked; serves = K.serves }) lent.now.snapshot.files lent.now.memos lent.now.snapshot.revision fuel (InReach (record { cmp = K.Key.cmp; given = K.given; make = K.make; ranked = K.ranked; serves = K.serves }) lent.now.snapshot.files (overlaid K.Key.cmp fresh.old lent.now.memos) key.now fuel) fresh.old fresh.new made × (K.counted kinds.new ≤ K.counted kinds.old + (length made + spare result)) × IfOk result (λ value. IsCurrentFor (record { cmp = K.Key.cmp; given = K.given; make = K.make; ranked = K.ranked; serves = K.serves }) lent.now.snapshot.files (found_in K.Key.cmp fresh.new) key.now fuel) }
{
    let serving = is_serving::<K>(fresh, lent, key, fuel);
    if serving {
        return brought(alloc, kinds, lent, key, fuel, fresh, watch);
    }
    again(alloc, kinds, lent, key, fuel, fresh, watch)
}

/// The value of a key of which what was found last, if anything, serves.
fn brought<K: Ending, W: Watch>(
    alloc: Global,
    kinds: &mut K,
    lent: &Lent<K>,
    key: &K::Key,
    fuel: u32,
    fresh: &mut Memos<K::Key, K::Value>,
    watch: &mut W,
) -> Result<Arc<K::Value>, Halt>
    requires fits { IsTrue (K.fits kinds.old lent.now.snapshot.files) }
    requires newest { IsNewest lent.now.snapshot.history lent.now.snapshot.revision lent.now.snapshot.files }
    requires lent { AllSound (record { cmp = K.Key.cmp; given = K.given; make = K.make; ranked = K.ranked; serves = K.serves }) lent.now.snapshot.history lent.now.memos }
    requires fresh { AllSound (record { cmp = K.Key.cmp; given = K.given; make = K.make; ranked = K.ranked; serves = K.serves }) lent.now.snapshot.history fresh.old }
    requires serving { Serving (overlaid K.Key.cmp fresh.old lent.now.memos) K.serves key.now fuel }
    ensures fits { (all : FilesValue) → K.fits kinds.new all ≡ K.fits kinds.old all }
    ensures fresh { AllSound (record { cmp = K.Key.cmp; given = K.given; make = K.make; ranked = K.ranked; serves = K.serves }) lent.now.snapshot.history fresh.new }
    ensures watch { IsWatched result lent.now.snapshot.revision (W.gave watch.old) (W.gave watch.new) }
    ensures value { IfOk result (λ value. HasValue (record { cmp = K.Key.cmp; given = K.given; make = K.make; ranked = K.ranked; serves = K.serves }) lent.now.snapshot.history lent.now.snapshot.revision key.now (arc_value value) × (K.serves (arc_value value) fuel ≡ true)) }
    ensures current { IsCurrentFor (record { cmp = K.Key.cmp; given = K.given; make = K.make; ranked = K.ranked; serves = K.serves }) lent.now.snapshot.files (overlaid K.Key.cmp fresh.old lent.now.memos) key.now fuel → IsStill (K.counted kinds.old) (K.counted kinds.new) (overlaid K.Key.cmp fresh.old lent.now.memos) (overlaid K.Key.cmp fresh.new lent.now.memos) }
    ensures makes { IsSettled (record { cmp = K.Key.cmp; given = K.given; make = K.make; ranked = K.ranked; serves = K.serves }) lent.now.snapshot.files lent.now.snapshot.revision fresh.old → (made : List K.Key) × Makes (record { cmp = K.Key.cmp; given = K.given; make = K.make; ranked = K.ranked; serves = K.serves }) lent.now.snapshot.files lent.now.memos lent.now.snapshot.revision fuel (InReach (record { cmp = K.Key.cmp; given = K.given; make = K.make; ranked = K.ranked; serves = K.serves }) lent.now.snapshot.files (overlaid K.Key.cmp fresh.old lent.now.memos) key.now fuel) fresh.old fresh.new made × (K.counted kinds.new ≤ K.counted kinds.old + (length made + spare result)) × IfOk result (λ value. IsCurrentFor (record { cmp = K.Key.cmp; given = K.given; make = K.make; ranked = K.ranked; serves = K.serves }) lent.now.snapshot.files (found_in K.Key.cmp fresh.new) key.now fuel) }
{
    let (value, _) = bring(alloc, kinds, lent, key, fuel, fresh, watch)?;
    Ok(value)
}

/// The value of a key of which what was found last does not serve. It is computed anew.
fn again<K: Ending, W: Watch>(
    alloc: Global,
    kinds: &mut K,
    lent: &Lent<K>,
    key: &K::Key,
    fuel: u32,
    fresh: &mut Memos<K::Key, K::Value>,
    watch: &mut W,
) -> Result<Arc<K::Value>, Halt>
    requires fits { IsTrue (K.fits kinds.old lent.now.snapshot.files) }
    requires newest { IsNewest lent.now.snapshot.history lent.now.snapshot.revision lent.now.snapshot.files }
    requires lent { AllSound (record { cmp = K.Key.cmp; given = K.given; make = K.make; ranked = K.ranked; serves = K.serves }) lent.now.snapshot.history lent.now.memos }
    requires fresh { AllSound (record { cmp = K.Key.cmp; given = K.given; make = K.make; ranked = K.ranked; serves = K.serves }) lent.now.snapshot.history fresh.old }
    requires lacking { Lacking (overlaid K.Key.cmp fresh.old lent.now.memos) K.serves key.now fuel }
    ensures fits { (all : FilesValue) → K.fits kinds.new all ≡ K.fits kinds.old all }
    ensures fresh { AllSound (record { cmp = K.Key.cmp; given = K.given; make = K.make; ranked = K.ranked; serves = K.serves }) lent.now.snapshot.history fresh.new }
    ensures watch { IsWatched result lent.now.snapshot.revision (W.gave watch.old) (W.gave watch.new) }
    ensures value { IfOk result (λ value. HasValue (record { cmp = K.Key.cmp; given = K.given; make = K.make; ranked = K.ranked; serves = K.serves }) lent.now.snapshot.history lent.now.snapshot.revision key.now (arc_value value) × (K.serves (arc_value value) fuel ≡ true)) }
    ensures current { IsCurrentFor (record { cmp = K.Key.cmp; given = K.given; make = K.make; ranked = K.ranked; serves = K.serves }) lent.now.snapshot.files (overlaid K.Key.cmp fresh.old lent.now.memos) key.now fuel → IsStill (K.counted kinds.old) (K.counted kinds.new) (overlaid K.Key.cmp fresh.old lent.now.memos) (overlaid K.Key.cmp fresh.new lent.now.memos) }
    ensures makes { IsSettled (record { cmp = K.Key.cmp; given = K.given; make = K.make; ranked = K.ranked; serves = K.serves }) lent.now.snapshot.files lent.now.snapshot.revision fresh.old → (made : List K.Key) × Makes (record { cmp = K.Key.cmp; given = K.given; make = K.make; ranked = K.ranked; serves = K.serves }) lent.now.snapshot.files lent.now.memos lent.now.snapshot.revision fuel (InReach (record { cmp = K.Key.cmp; given = K.given; make = K.make; ranked = K.ranked; serves = K.serves }) lent.now.snapshot.files (overlaid K.Key.cmp fresh.old lent.now.memos) key.now fuel) fresh.old fresh.new made × (K.counted kinds.new ≤ K.counted kinds.old + (length made + spare result)) × IfOk result (λ value. IsCurrentFor (record { cmp = K.Key.cmp; given = K.given; make = K.make; ranked = K.ranked; serves = K.serves }) lent.now.snapshot.files (found_in K.Key.cmp fresh.new) key.now fuel) }
{
    look_out(lent, watch)?;
    let older = last::<K>(fresh, lent, key)?;
    let newer = anew(alloc, kinds, lent, key, fuel, fresh, watch)?;
    let memo = with_stamp::<K>(newer, &older);
    let (value, _) = keep::<K>(alloc, fresh, memo)?;
    Ok(value)
}
