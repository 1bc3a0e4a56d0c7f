//! What the calls that ask for values do beside asking: memos are found, made and kept.
ghost use Rattle.std.specs.Prelude.{◌≡◌, ◌⊎◌, ◌++◌, [], ◌∷◌, ℕ, true, false, Some, None, IfOk, IsTrue, is_some, MatchOption, MatchResult, option_map};
ghost use Rattle.std.specs.Arc.{arc_value};
ghost use Rattle.sve_io.specs.declared.halt.Halt.TheVariants.{NoMemory as NoMoreMemory};
ghost use Rattle.sve_store.specs.Made.{IsOneOf};
ghost use Rattle.sve_memo.specs.Memos.{FindingValue, MemoValue, put_memo};
ghost use Rattle.sve_ask.specs.Current.{found_in, overlaid, Serving, Lacking};
ghost use Rattle.sve_ask.specs.Watched.{IsWatched};
ghost use Rattle.sve_ask.specs.Gains.{AllVerified, InPhase};

use crate::lent::Lent;
use crate::watch::{Watch, look};
use std::alloc::Global;
use std::sync::Arc;
use sve_bytes::NoMemory;
use sve_io::Halt;
use sve_memo::{Memo, Memos};
use sve_store::{Keyed, Kinds, Known};

/// The memo of a key, shared.
pub(crate) fn shared<K: Keyed>(
    memos: &Memos<K::Key, K::Value>,
    key: &K::Key,
) -> Result<Option<Memo<K::Key, K::Value>>, NoMemory>
    ensures found { IfOk result (λ found. option_map (λ memo. memo.finding) found ≡ found_in K.Key.cmp memos.now key.now) }
    ensures held { IfOk result (λ found. MatchOption found (Unit {0}) (λ memo. (memo.finding.key ≡ key.now) × IsOneOf memos.now memo)) }
{
    match memos.find(key) {
        Some(memo) => Ok(Some(memo.share()?)),
        None => Ok(None),
    }
}

/// The newest memo of a key: that of the fresh ones, or else that of those that were lent.
pub(crate) fn newest<K: Kinds>(
    fresh: &Memos<K::Key, K::Value>,
    lent: &Lent<K>,
    key: &K::Key,
) -> Result<Option<Memo<K::Key, K::Value>>, NoMemory>
    ensures found { IfOk result (λ found. option_map (λ memo. memo.finding) found ≡ overlaid K.Key.cmp fresh.now lent.now.memos key.now) }
    ensures held { IfOk result (λ found. MatchOption found (Unit {0}) (λ memo. (memo.finding.key ≡ key.now) × (IsOneOf fresh.now memo ⊎ IsOneOf lent.now.memos memo))) }
{
    match shared::<K>(fresh, key)? {
        Some(memo) => Ok(Some(memo)),
        None => shared::<K>(&lent.memos, key),
    }
}

/// The newest memo of a key, on condition that there is one.
pub(crate) fn last<K: Kinds>(
    fresh: &Memos<K::Key, K::Value>,
    lent: &Lent<K>,
    key: &K::Key,
) -> Result<Memo<K::Key, K::Value>, NoMemory>
    requires found { is_some (overlaid K.Key.cmp fresh.now lent.now.memos key.now) ≡ true }
    ensures found { IfOk result (λ memo. overlaid K.Key.cmp fresh.now lent.now.memos key.now ≡ Some memo.finding) }
    ensures held { IfOk result (λ memo. (memo.finding.key ≡ key.now) × (IsOneOf fresh.now memo ⊎ IsOneOf lent.now.memos memo)) }
{
    match newest::<K>(fresh, lent, key)? {
        Some(memo) => Ok(memo),
        None => unreachable!(),
    }
}

/// The fresh memo of a key, if it is verified at the revision.
pub(crate) fn known<K: Kinds>(
    fresh: &Memos<K::Key, K::Value>,
    lent: &Lent<K>,
    key: &K::Key,
) -> Result<Option<Memo<K::Key, K::Value>>, NoMemory>
    ensures none { IfOk result (λ found. MatchOption found (AllVerified lent.now.snapshot.revision fresh.now → found_in K.Key.cmp fresh.now key.now ≡ None) (λ memo. Unit {0})) }
    ensures some { IfOk result (λ found. MatchOption found (Unit {0}) (λ memo. (memo.finding.key ≡ key.now) × IsOneOf fresh.now memo × (memo.verified ≡ lent.now.snapshot.revision) × (found_in K.Key.cmp fresh.now key.now ≡ Some memo.finding))) }
{
    match shared::<K>(fresh, key)? {
        Some(memo) => {
            if memo.verified() == lent.snapshot.revision() {
                return Ok(Some(memo));
            }
            Ok(None)
        }
        None => Ok(None),
    }
}

/// The newest memo of a key, lent.
fn newest_of<'a, K: Kinds>(
    fresh: &'a Memos<K::Key, K::Value>,
    lent: &'a Lent<K>,
    key: &K::Key,
) -> Option<&'a Memo<K::Key, K::Value>>
    ensures { option_map (λ memo. memo.now.finding) result ≡ overlaid K.Key.cmp fresh.now lent.now.memos key.now }
{
    match fresh.find(key) {
        Some(memo) => Some(memo),
        None => lent.memos.find(key),
    }
}

/// Whether what was found last for a key, if anything, serves whoever asks with this fuel.
pub(crate) fn is_serving<K: Kinds>(
    fresh: &Memos<K::Key, K::Value>,
    lent: &Lent<K>,
    key: &K::Key,
    fuel: u32,
) -> bool
    ensures serving { result ≡ true → Serving (overlaid K.Key.cmp fresh.now lent.now.memos) K.serves key.now fuel }
    ensures lacking { result ≡ false → Lacking (overlaid K.Key.cmp fresh.now lent.now.memos) K.serves key.now fuel }
{
    match newest_of::<K>(fresh, lent, key) {
        Some(memo) => K::answers(memo.value(), fuel),
        None => true,
    }
}

/// A memo of a value that was computed at the revision.
pub(crate) fn memo_of<K: Kinds>(
    alloc: Global,
    lent: &Lent<K>,
    key: &K::Key,
    value: K::Value,
    reads: Vec<(K::Key, u64)>,
) -> Result<Memo<K::Key, K::Value>, Halt>
    ensures { MatchResult result (λ memo. memo ≡ record { finding = record { key = key.now; value = value; stamp = lent.now.snapshot.revision; reads = reads.items }; verified = lent.now.snapshot.revision }) (λ halt. halt ≡ NoMoreMemory) }
{
    let value = Arc::new(alloc, value)?;
    let key = K::copy_key(alloc, key)?;
    let revision = lent.snapshot.revision();
    Ok(Memo::new(alloc, key, value, revision, reads, revision)?)
}

/// Notes the value of a key, and records that the key was read.
pub(crate) fn note<K: Keyed>(
    alloc: Global,
    reads: &mut Vec<(K::Key, u64)>,
    known: &mut Known<K::Key, K::Value>,
    key: K::Key,
    value: Arc<K::Value>,
    stamp: u64,
) -> Result<(), Halt>
    ensures { MatchResult result (λ _. (reads.new.items ≡ reads.old.items ++ (key, stamp) ∷ []) × (known.new ≡ known.old ++ (key, arc_value value) ∷ [])) (λ halt. halt ≡ NoMoreMemory) }
{
    reads.push((K::copy_key(alloc, &key)?, stamp))?;
    known.put(alloc, key, value)?;
    Ok(())
}

/// The value of a memo, with its stamp.
pub(crate) fn handed<K: Keyed>(memo: &Memo<K::Key, K::Value>) -> Result<(Arc<K::Value>, u64), Halt>
    ensures { MatchResult result (λ pair. (arc_value pair.0 ≡ memo.now.finding.value) × (pair.1 ≡ memo.now.finding.stamp)) (λ halt. halt ≡ NoMoreMemory) }
{
    let value = Arc::try_clone(memo.value())?;
    let stamp = memo.stamp();
    Ok((value, stamp))
}

/// Puts a memo among the fresh ones, and hands out its value with its stamp.
pub(crate) fn keep<K: Keyed>(
    alloc: Global,
    fresh: &mut Memos<K::Key, K::Value>,
    memo: Memo<K::Key, K::Value>,
) -> Result<(Arc<K::Value>, u64), Halt>
    ensures { MatchResult result (λ pair. (arc_value pair.0 ≡ memo.finding.value) × (pair.1 ≡ memo.finding.stamp) × (fresh.new ≡ put_memo K.Key.cmp memo fresh.old)) (λ halt. (halt ≡ NoMoreMemory) × (fresh.new ≡ fresh.old)) }
{
    let value = Arc::try_clone(memo.value())?;
    let stamp = memo.stamp();
    fresh.put(alloc, memo)?;
    Ok((value, stamp))
}

/// Whether a read of this key is not of the phase: that of lower rank than the memo's key, or else that of its own.
pub(crate) fn is_skipped<K: Keyed>(own: bool, read: &K::Key, of: &Memo<K::Key, K::Value>) -> bool
    ensures skip { result ≡ true → InPhase own (K.ranked read.now) (K.ranked of.now.finding.key) → ⊥ }
    ensures take { result ≡ false → InPhase own (K.ranked read.now) (K.ranked of.now.finding.key) }
{
    let rank = K::rank(of.key());
    if own {
        K::rank(read) < rank
    } else {
        K::rank(read) >= rank
    }
}

/// A memo that was computed anew, with the stamp of the older one where that has the same value.
pub(crate) fn with_stamp<K: Keyed>(
    newer: Memo<K::Key, K::Value>,
    older: &Memo<K::Key, K::Value>,
) -> Memo<K::Key, K::Value>
    ensures same { (result.finding.key ≡ newer.finding.key) × (result.finding.value ≡ newer.finding.value) × (result.verified ≡ newer.verified) × (result.finding.reads ≡ newer.finding.reads) }
    ensures stamp { (result.finding.stamp ≡ newer.finding.stamp) ⊎ ((result.finding.stamp ≡ older.now.finding.stamp) × (newer.finding.value ≡ older.now.finding.value)) }
    ensures keeps { newer.finding.value ≡ older.now.finding.value → result.finding.stamp ≡ older.now.finding.stamp }
{
    if K::same(newer.value(), older.value()) {
        return newer.stamped(older.stamp());
    }
    newer
}

/// The memo as known at the revision.
pub(crate) fn verified_now<K: Kinds>(
    lent: &Lent<K>,
    memo: Memo<K::Key, K::Value>,
) -> Memo<K::Key, K::Value>
    ensures { result ≡ record { finding = memo.finding; verified = lent.now.snapshot.revision } }
{
    memo.verified_at(lent.snapshot.revision())
}

/// Stops where the watch gives a number above the revision.
pub(crate) fn look_out<K: Kinds, W: Watch>(lent: &Lent<K>, watch: &mut W) -> Result<(), Halt>
    ensures { IsWatched result lent.now.snapshot.revision (W.gave watch.old) (W.gave watch.new) }
{
    look(watch, lent.snapshot.revision())
}

/// The value of an input at the snapshot's files with its stamp, and `None` for a key whose value is computed.
pub(crate) fn input_of<K: Kinds>(
    alloc: Global,
    kinds: &K,
    lent: &Lent<K>,
    key: &K::Key,
) -> Result<Option<(Arc<K::Value>, u64)>, NoMemory>
    requires fit { IsTrue (K.fits kinds.now lent.now.snapshot.files) }
    ensures { IfOk result (λ found. option_map (λ pair. (arc_value pair.0, pair.1)) found ≡ K.given lent.now.snapshot.files key.now) }
{
    kinds.input(alloc, key, lent.snapshot.files())
}
