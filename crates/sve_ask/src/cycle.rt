//! Values that are brought up to a revision, each by what was found for it before, or computed anew.
ghost use Rattle.std.specs.Prelude.{◌≡◌, ◌⊎◌, ◌+◌, ◌<◌, ◌≤◌, ℕ, true, false, List, length, Some, None, IfOk, IsErr, IsTrue};
ghost use Rattle.std.specs.Arc.{arc_value};
ghost use Rattle.sve_text.specs.Files.{FilesValue};
ghost use Rattle.sve_store.specs.Made.{IsOneOf};
ghost use Rattle.sve_ask.specs.Sound.{Defined, IsNewest, AllSound, IsSound, IsStamped, SameAt, files_of};
ghost use Rattle.sve_ask.specs.Current.{found_in, overlaid, Serving, IsCurrent, IsStill};
ghost use Rattle.sve_ask.specs.Watched.{IsWatched, spare, spent};
ghost use Rattle.sve_ask.specs.Gains.{Reads, InReach, InReachOfReads, InReachBelow, IsBelow, AllCurrent, HasShown, InPhase, IsSettled, Gains, IsRenewed};

use crate::held::{
    handed, input_of, is_skipped, keep, known, look_out, memo_of, newest, note, verified_now,
    with_stamp,
};
use crate::lent::Lent;
use crate::watch::Watch;
use std::alloc::Global;
use std::sync::Arc;
use sve_io::Halt;
use sve_memo::{Memo, Memos};
use sve_store::{Ending, Known, Tried, one_try};

/// Whether the recorded reads of a phase still have their stamps: those of lower rank, or those of the key's own.
#[cycle(asking)]
fn agrees<K: Ending, W: Watch>(
    alloc: Global,
    kinds: &mut K,
    lent: &Lent<K>,
    memo: &Memo<K::Key, K::Value>,
    own: bool,
    fresh: &mut Memos<K::Key, K::Value>,
    watch: &mut W,
) -> Result<bool, Halt>
    requires fits { IsTrue (K.fits kinds.old lent.now.snapshot.files) }
    requires newest { IsNewest lent.now.snapshot.history lent.now.snapshot.revision lent.now.snapshot.files }
    requires lent { AllSound (record { cmp = K.Key.cmp; given = K.given; make = K.make; ranked = K.ranked; serves = K.serves }) lent.now.snapshot.history lent.now.memos }
    requires fresh { AllSound (record { cmp = K.Key.cmp; given = K.given; make = K.make; ranked = K.ranked; serves = K.serves }) lent.now.snapshot.history fresh.old }
    requires memo { ∥ IsSound (record { cmp = K.Key.cmp; given = K.given; make = K.make; ranked = K.ranked; serves = K.serves }) lent.now.snapshot.history memo.now ∥₁ }
    requires later { own ≡ true → (j : K.Key) (t : ℕ) → IsOneOf memo.now.finding.reads (j, t) → K.ranked j < K.ranked memo.now.finding.key → SameAt (record { cmp = K.Key.cmp; given = K.given; make = K.make; ranked = K.ranked; serves = K.serves }) lent.now.snapshot.history t lent.now.snapshot.revision j }
    ensures fits { (all : FilesValue) → K.fits kinds.new all ≡ K.fits kinds.old all }
    ensures fresh { AllSound (record { cmp = K.Key.cmp; given = K.given; make = K.make; ranked = K.ranked; serves = K.serves }) lent.now.snapshot.history fresh.new }
    ensures watch { IsWatched result lent.now.snapshot.revision (W.gave watch.old) (W.gave watch.new) }
    ensures same { IfOk result (λ is. is ≡ true → (j : K.Key) (t : ℕ) → IsOneOf memo.now.finding.reads (j, t) → InPhase own (K.ranked j) (K.ranked memo.now.finding.key) → SameAt (record { cmp = K.Key.cmp; given = K.given; make = K.make; ranked = K.ranked; serves = K.serves }) lent.now.snapshot.history t lent.now.snapshot.revision j) }
    ensures current { ((j : K.Key) (t : ℕ) → IsOneOf memo.now.finding.reads (j, t) → IsCurrent (K.given lent.now.snapshot.files) (overlaid K.Key.cmp fresh.old lent.now.memos) j t) → IsStill (K.counted kinds.old) (K.counted kinds.new) (overlaid K.Key.cmp fresh.old lent.now.memos) (overlaid K.Key.cmp fresh.new lent.now.memos) × IfOk result (λ is. is ≡ true) }
    ensures gains { IsSettled (record { cmp = K.Key.cmp; given = K.given; make = K.make; ranked = K.ranked; serves = K.serves }) lent.now.snapshot.files lent.now.snapshot.revision fresh.old → (made : List K.Key) × Gains (record { cmp = K.Key.cmp; given = K.given; make = K.make; ranked = K.ranked; serves = K.serves }) lent.now.snapshot.files (K.height (files_of lent.now.snapshot.history lent.now.snapshot.revision)) lent.now.memos lent.now.snapshot.revision ((K.height (files_of lent.now.snapshot.history lent.now.snapshot.revision)) memo.now.finding.key) 0 (InReachOfReads (record { cmp = K.Key.cmp; given = K.given; make = K.make; ranked = K.ranked; serves = K.serves }) lent.now.snapshot.files (overlaid K.Key.cmp fresh.old lent.now.memos) memo.now.finding.reads) fresh.old fresh.new made × (K.counted kinds.new ≤ K.counted kinds.old + (length made + spare result)) × IfOk result (λ is. HasShown (record { cmp = K.Key.cmp; given = K.given; make = K.make; ranked = K.ranked; serves = K.serves }) lent.now.snapshot.files is (found_in K.Key.cmp fresh.new) (λ j. InPhase own (K.ranked j) (K.ranked memo.now.finding.key)) memo.now.finding.reads) }
{
    let reads: &[(K::Key, u64)] = memo.reads();
    'looks: for read in reads {
        let skipped = is_skipped::<K>(own, &read.0, memo);
        if skipped {
            continue;
        }
        let (_, stamp) = bring(alloc, kinds, lent, &read.0, 0, fresh, watch)?;
        if stamp != read.1 {
            return Ok(false);
        }
    }
    Ok(true)
}

/// Whether each recorded read still has its stamp. Those of lower rank come first: only where they have it are those of
/// the key's own rank known to be of lower height.
#[cycle(asking)]
fn verify<K: Ending, W: Watch>(
    alloc: Global,
    kinds: &mut K,
    lent: &Lent<K>,
    memo: &Memo<K::Key, K::Value>,
    fresh: &mut Memos<K::Key, K::Value>,
    watch: &mut W,
) -> Result<bool, Halt>
    requires fits { IsTrue (K.fits kinds.old lent.now.snapshot.files) }
    requires newest { IsNewest lent.now.snapshot.history lent.now.snapshot.revision lent.now.snapshot.files }
    requires lent { AllSound (record { cmp = K.Key.cmp; given = K.given; make = K.make; ranked = K.ranked; serves = K.serves }) lent.now.snapshot.history lent.now.memos }
    requires fresh { AllSound (record { cmp = K.Key.cmp; given = K.given; make = K.make; ranked = K.ranked; serves = K.serves }) lent.now.snapshot.history fresh.old }
    requires memo { ∥ IsSound (record { cmp = K.Key.cmp; given = K.given; make = K.make; ranked = K.ranked; serves = K.serves }) lent.now.snapshot.history memo.now ∥₁ }
    ensures fits { (all : FilesValue) → K.fits kinds.new all ≡ K.fits kinds.old all }
    ensures fresh { AllSound (record { cmp = K.Key.cmp; given = K.given; make = K.make; ranked = K.ranked; serves = K.serves }) lent.now.snapshot.history fresh.new }
    ensures watch { IsWatched result lent.now.snapshot.revision (W.gave watch.old) (W.gave watch.new) }
    ensures same { IfOk result (λ is. is ≡ true → (j : K.Key) (t : ℕ) → IsOneOf memo.now.finding.reads (j, t) → SameAt (record { cmp = K.Key.cmp; given = K.given; make = K.make; ranked = K.ranked; serves = K.serves }) lent.now.snapshot.history t lent.now.snapshot.revision j) }
    ensures current { ((j : K.Key) (t : ℕ) → IsOneOf memo.now.finding.reads (j, t) → IsCurrent (K.given lent.now.snapshot.files) (overlaid K.Key.cmp fresh.old lent.now.memos) j t) → IsStill (K.counted kinds.old) (K.counted kinds.new) (overlaid K.Key.cmp fresh.old lent.now.memos) (overlaid K.Key.cmp fresh.new lent.now.memos) × IfOk result (λ is. is ≡ true) }
    ensures gains { IsSettled (record { cmp = K.Key.cmp; given = K.given; make = K.make; ranked = K.ranked; serves = K.serves }) lent.now.snapshot.files lent.now.snapshot.revision fresh.old → (made : List K.Key) × Gains (record { cmp = K.Key.cmp; given = K.given; make = K.make; ranked = K.ranked; serves = K.serves }) lent.now.snapshot.files (K.height (files_of lent.now.snapshot.history lent.now.snapshot.revision)) lent.now.memos lent.now.snapshot.revision ((K.height (files_of lent.now.snapshot.history lent.now.snapshot.revision)) memo.now.finding.key) 0 (InReachOfReads (record { cmp = K.Key.cmp; given = K.given; make = K.make; ranked = K.ranked; serves = K.serves }) lent.now.snapshot.files (overlaid K.Key.cmp fresh.old lent.now.memos) memo.now.finding.reads) fresh.old fresh.new made × (K.counted kinds.new ≤ K.counted kinds.old + (length made + spare result)) × IfOk result (λ is. HasShown (record { cmp = K.Key.cmp; given = K.given; make = K.make; ranked = K.ranked; serves = K.serves }) lent.now.snapshot.files is (found_in K.Key.cmp fresh.new) (λ j. Unit {0}) memo.now.finding.reads) }
{
    let low = agrees(alloc, kinds, lent, memo, false, fresh, watch)?;
    if low {
        return agrees(alloc, kinds, lent, memo, true, fresh, watch);
    }
    Ok(false)
}

/// A memo of a key that is computed anew.
#[cycle(asking)]
pub(crate) fn anew<K: Ending, W: Watch>(
    alloc: Global,
    kinds: &mut K,
    lent: &Lent<K>,
    key: &K::Key,
    fuel: u32,
    fresh: &mut Memos<K::Key, K::Value>,
    watch: &mut W,
) -> Result<Memo<K::Key, K::Value>, Halt>
    requires fits { IsTrue (K.fits kinds.old lent.now.snapshot.files) }
    requires newest { IsNewest lent.now.snapshot.history lent.now.snapshot.revision lent.now.snapshot.files }
    requires lent { AllSound (record { cmp = K.Key.cmp; given = K.given; make = K.make; ranked = K.ranked; serves = K.serves }) lent.now.snapshot.history lent.now.memos }
    requires fresh { AllSound (record { cmp = K.Key.cmp; given = K.given; make = K.make; ranked = K.ranked; serves = K.serves }) lent.now.snapshot.history fresh.old }
    requires computed { K.is_input key.now ≡ false }
    ensures fits { (all : FilesValue) → K.fits kinds.new all ≡ K.fits kinds.old all }
    ensures fresh { AllSound (record { cmp = K.Key.cmp; given = K.given; make = K.make; ranked = K.ranked; serves = K.serves }) lent.now.snapshot.history fresh.new }
    ensures watch { IsWatched result lent.now.snapshot.revision (W.gave watch.old) (W.gave watch.new) }
    ensures memo { IfOk result (λ memo. (memo.finding.key ≡ key.now) × (memo.verified ≡ lent.now.snapshot.revision) × ∥ IsSound (record { cmp = K.Key.cmp; given = K.given; make = K.make; ranked = K.ranked; serves = K.serves }) lent.now.snapshot.history memo ∥₁) }
    ensures serves { IfOk result (λ memo. K.serves memo.finding.value fuel ≡ true) }
    ensures gains { IsSettled (record { cmp = K.Key.cmp; given = K.given; make = K.make; ranked = K.ranked; serves = K.serves }) lent.now.snapshot.files lent.now.snapshot.revision fresh.old → (made : List K.Key) × Gains (record { cmp = K.Key.cmp; given = K.given; make = K.make; ranked = K.ranked; serves = K.serves }) lent.now.snapshot.files (K.height (files_of lent.now.snapshot.history lent.now.snapshot.revision)) lent.now.memos lent.now.snapshot.revision ((K.height (files_of lent.now.snapshot.history lent.now.snapshot.revision)) key.now) 0 (InReachBelow (record { cmp = K.Key.cmp; given = K.given; make = K.make; ranked = K.ranked; serves = K.serves }) lent.now.snapshot.files (overlaid K.Key.cmp fresh.old lent.now.memos) key.now fuel) fresh.old fresh.new made × (K.counted kinds.new ≤ K.counted kinds.old + (length made + spent result)) × IfOk result (λ memo. AllCurrent (record { cmp = K.Key.cmp; given = K.given; make = K.make; ranked = K.ranked; serves = K.serves }) lent.now.snapshot.files (found_in K.Key.cmp fresh.new) (λ j. Unit {0}) memo.finding.reads × ((j : K.Key) (t : ℕ) → IsOneOf memo.finding.reads (j, t) → Reads (record { cmp = K.Key.cmp; given = K.given; make = K.make; ranked = K.ranked; serves = K.serves }) lent.now.snapshot.files key.now fuel j)) }
{
    let mut noted: Known<K::Key, K::Value> = Known::new(alloc);
    let mut reads: Vec<(K::Key, u64)> = Vec::new(alloc);
    'tries: loop {
        match one_try(alloc, kinds, &noted, key, fuel)? {
            Tried::Came(made) => {
                return memo_of::<K>(alloc, lent, key, made, reads);
            }
            Tried::Wants(needed) => {
                let (value, stamp) = bring(alloc, kinds, lent, &needed, 0, fresh, watch)?;
                note::<K>(alloc, &mut reads, &mut noted, needed, value, stamp)?;
            }
        }
    }
}

/// A memo of a key that is verified at the revision.
#[cycle(asking)]
fn renew<K: Ending, W: Watch>(
    alloc: Global,
    kinds: &mut K,
    lent: &Lent<K>,
    key: &K::Key,
    fuel: u32,
    fresh: &mut Memos<K::Key, K::Value>,
    watch: &mut W,
) -> Result<Memo<K::Key, K::Value>, Halt>
    requires fits { IsTrue (K.fits kinds.old lent.now.snapshot.files) }
    requires newest { IsNewest lent.now.snapshot.history lent.now.snapshot.revision lent.now.snapshot.files }
    requires lent { AllSound (record { cmp = K.Key.cmp; given = K.given; make = K.make; ranked = K.ranked; serves = K.serves }) lent.now.snapshot.history lent.now.memos }
    requires fresh { AllSound (record { cmp = K.Key.cmp; given = K.given; make = K.make; ranked = K.ranked; serves = K.serves }) lent.now.snapshot.history fresh.old }
    requires computed { K.is_input key.now ≡ false }
    requires serving { Serving (overlaid K.Key.cmp fresh.old lent.now.memos) K.serves key.now fuel }
    ensures fits { (all : FilesValue) → K.fits kinds.new all ≡ K.fits kinds.old all }
    ensures fresh { AllSound (record { cmp = K.Key.cmp; given = K.given; make = K.make; ranked = K.ranked; serves = K.serves }) lent.now.snapshot.history fresh.new }
    ensures watch { IsWatched result lent.now.snapshot.revision (W.gave watch.old) (W.gave watch.new) }
    ensures memo { IfOk result (λ memo. (memo.finding.key ≡ key.now) × (memo.verified ≡ lent.now.snapshot.revision) × ∥ IsSound (record { cmp = K.Key.cmp; given = K.given; make = K.make; ranked = K.ranked; serves = K.serves }) lent.now.snapshot.history memo ∥₁) }
    ensures serves { IfOk result (λ memo. K.serves memo.finding.value fuel ≡ true) }
    ensures current { (s : ℕ) → IsCurrent (K.given lent.now.snapshot.files) (overlaid K.Key.cmp fresh.old lent.now.memos) key.now s → IsStill (K.counted kinds.old) (K.counted kinds.new) (overlaid K.Key.cmp fresh.old lent.now.memos) (overlaid K.Key.cmp fresh.new lent.now.memos) × IfOk result (λ memo. ((overlaid K.Key.cmp fresh.old lent.now.memos) key.now ≡ Some memo.finding) × (memo.finding.stamp ≡ s)) }
    ensures gains { IsSettled (record { cmp = K.Key.cmp; given = K.given; make = K.make; ranked = K.ranked; serves = K.serves }) lent.now.snapshot.files lent.now.snapshot.revision fresh.old → found_in K.Key.cmp fresh.old key.now ≡ None → (made : List K.Key) × Gains (record { cmp = K.Key.cmp; given = K.given; make = K.make; ranked = K.ranked; serves = K.serves }) lent.now.snapshot.files (K.height (files_of lent.now.snapshot.history lent.now.snapshot.revision)) lent.now.memos lent.now.snapshot.revision ((K.height (files_of lent.now.snapshot.history lent.now.snapshot.revision)) key.now) 0 (IsBelow (record { cmp = K.Key.cmp; given = K.given; make = K.make; ranked = K.ranked; serves = K.serves }) lent.now.snapshot.files (overlaid K.Key.cmp fresh.old lent.now.memos) key.now fuel) fresh.old fresh.new made × (IsErr result → K.counted kinds.new ≤ K.counted kinds.old + (length made + spare result)) × IfOk result (λ memo. IsRenewed (record { cmp = K.Key.cmp; given = K.given; make = K.make; ranked = K.ranked; serves = K.serves }) lent.now.snapshot.files (found_in K.Key.cmp fresh.new) (overlaid K.Key.cmp fresh.new lent.now.memos) key.now fuel memo.finding (K.counted kinds.new) (K.counted kinds.old + length made)) }
{
    match newest::<K>(fresh, lent, key)? {
        Some(memo) => {
            let same = verify(alloc, kinds, lent, &memo, fresh, watch)?;
            if same {
                return Ok(verified_now::<K>(lent, memo));
            }
            let newer = anew(alloc, kinds, lent, key, fuel, fresh, watch)?;
            Ok(with_stamp::<K>(newer, &memo))
        }
        None => anew(alloc, kinds, lent, key, fuel, fresh, watch),
    }
}

/// The value of a key at the revision, with a stamp that names it.
#[cycle(asking)]
pub(crate) fn bring<K: Ending, W: Watch>(
    alloc: Global,
    kinds: &mut K,
    lent: &Lent<K>,
    key: &K::Key,
    fuel: u32,
    fresh: &mut Memos<K::Key, K::Value>,
    watch: &mut W,
) -> Result<(Arc<K::Value>, u64), Halt>
    requires fits { IsTrue (K.fits kinds.old lent.now.snapshot.files) }
    requires newest { IsNewest lent.now.snapshot.history lent.now.snapshot.revision lent.now.snapshot.files }
    requires lent { AllSound (record { cmp = K.Key.cmp; given = K.given; make = K.make; ranked = K.ranked; serves = K.serves }) lent.now.snapshot.history lent.now.memos }
    requires fresh { AllSound (record { cmp = K.Key.cmp; given = K.given; make = K.make; ranked = K.ranked; serves = K.serves }) lent.now.snapshot.history fresh.old }
    requires serving { Serving (overlaid K.Key.cmp fresh.old lent.now.memos) K.serves key.now fuel }
    ensures fits { (all : FilesValue) → K.fits kinds.new all ≡ K.fits kinds.old all }
    ensures fresh { AllSound (record { cmp = K.Key.cmp; given = K.given; make = K.make; ranked = K.ranked; serves = K.serves }) lent.now.snapshot.history fresh.new }
    ensures watch { IsWatched result lent.now.snapshot.revision (W.gave watch.old) (W.gave watch.new) }
    ensures value { IfOk result (λ pair. IsStamped (record { cmp = K.Key.cmp; given = K.given; make = K.make; ranked = K.ranked; serves = K.serves }) lent.now.snapshot.history lent.now.snapshot.revision key.now (arc_value pair.0) pair.1) }
    ensures serves { IfOk result (λ pair. K.serves (arc_value pair.0) fuel ≡ true) }
    ensures serving { IfOk result (λ pair. Serving (found_in K.Key.cmp fresh.new) K.serves key.now fuel) }
    ensures current { (s : ℕ) → IsCurrent (K.given lent.now.snapshot.files) (overlaid K.Key.cmp fresh.old lent.now.memos) key.now s → IsStill (K.counted kinds.old) (K.counted kinds.new) (overlaid K.Key.cmp fresh.old lent.now.memos) (overlaid K.Key.cmp fresh.new lent.now.memos) × IfOk result (λ pair. pair.1 ≡ s) }
    ensures gains { IsSettled (record { cmp = K.Key.cmp; given = K.given; make = K.make; ranked = K.ranked; serves = K.serves }) lent.now.snapshot.files lent.now.snapshot.revision fresh.old → (made : List K.Key) × Gains (record { cmp = K.Key.cmp; given = K.given; make = K.make; ranked = K.ranked; serves = K.serves }) lent.now.snapshot.files (K.height (files_of lent.now.snapshot.history lent.now.snapshot.revision)) lent.now.memos lent.now.snapshot.revision ((K.height (files_of lent.now.snapshot.history lent.now.snapshot.revision)) key.now + 1) fuel (InReach (record { cmp = K.Key.cmp; given = K.given; make = K.make; ranked = K.ranked; serves = K.serves }) lent.now.snapshot.files (overlaid K.Key.cmp fresh.old lent.now.memos) key.now fuel) fresh.old fresh.new made × (K.counted kinds.new ≤ K.counted kinds.old + (length made + spare result)) × IfOk result (λ pair. IsCurrent (K.given lent.now.snapshot.files) (found_in K.Key.cmp fresh.new) key.now pair.1) }
{
    look_out(lent, watch)?;
    if let Some((value, stamp)) = input_of(alloc, kinds, lent, key)? {
        return Ok((value, stamp));
    }
    if let Some(memo) = known::<K>(fresh, lent, key)? {
        return handed::<K>(&memo);
    }
    let renewed = renew(alloc, kinds, lent, key, fuel, fresh, watch)?;
    keep::<K>(alloc, fresh, renewed)
}
