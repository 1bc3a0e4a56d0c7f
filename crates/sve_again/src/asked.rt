//! Queries that are answered at the newest revision of a core, one after another.
ghost use Rattle.std.specs.Prelude.{◌≡◌, ℕ, [], false, length, IfOk, IfErr, OnOk, IsTrue};
ghost use Rattle.sve_history.specs.Histories.{newest_files};
ghost use Rattle.sve_store.specs.Made.{values_of};
ghost use Rattle.sve_store.specs.Values.{IsTable, IsAnswer, IsDone};
ghost use Rattle.sve_store.specs.Told.{HasStopped};
ghost use Rattle.sve_ask.specs.Sound.{Defined};
ghost use Rattle.sve_ask.specs.Watched.{GaveMore};
ghost use Rattle.sve_reader.specs.Noted.{above};
ghost use Rattle.sve_reader.specs.UpToDate.{IsUpToDate};

use std::alloc::Global;
use sve_ask::{Fresh, Watch};
use sve_core::Core;
use sve_io::Halt;
use sve_reader::read_answer;
use sve_store::laws::each_key_has_a_value;
use sve_store::{Answer, Ending};

/// What a query comes to that is asked twice.
#[derive(Drop)]
pub struct Twice {
    /// The first answer.
    pub first: Answer,
    /// The second answer.
    pub second: Answer,
    /// How many values were computed for the second answer.
    pub computes: u64,
}

/// The answer of a query at the newest revision, and the watch back. What was found is published, for every ask to come.
///
/// Where each computed key that it asks for is up to date by what is shared, it computes nothing. Where it is done, each of them
/// is up to date from then on.
///
/// # Errors
/// It was stopped by the first number above the newest revision that the watch gave, or there was no memory.
pub fn answered<K: Ending, W: Watch>(
    alloc: Global,
    core: &mut Core<K>,
    kinds: &mut K,
    query: &K::Query,
    budget: u32,
    watch: W,
) -> (Result<Answer, Halt>, W)
    requires fits { IsTrue (K.fits kinds.old (newest_files core.old.history)) }
    ensures fits { IsTrue (K.fits kinds.new (newest_files core.old.history)) }
    ensures history { core.new.history ≡ core.old.history }
    ensures answer { IfOk result.0 (λ answer. IsAnswer K.Key.cmp (values_of (K.given (newest_files core.old.history))) K.make K.answers_over query.now budget answer) }
    ensures quiet { (table : K.Key → ℕ → K.Value) → IsTable K.Key.cmp (values_of (K.given (newest_files core.old.history))) K.make table → ((k : K.Key) (f : ℕ) → K.is_input k ≡ false → K.asks_over table query.now budget k f → IsUpToDate (record { cmp = K.Key.cmp; given = K.given; make = K.make; ranked = K.ranked; serves = K.serves }) (newest_files core.old.history) [] core.old.memos k f) → K.counted kinds.new ≡ K.counted kinds.old }
    ensures done { (table : K.Key → ℕ → K.Value) → IsTable K.Key.cmp (values_of (K.given (newest_files core.old.history))) K.make table → IfOk result.0 (λ answer. IsDone answer → (k : K.Key) (f : ℕ) → K.is_input k ≡ false → K.asks_over table query.now budget k f → IsUpToDate (record { cmp = K.Key.cmp; given = K.given; make = K.make; ranked = K.ranked; serves = K.serves }) (newest_files core.old.history) [] core.new.memos k f) }
    ensures gave { GaveMore (W.gave watch) (W.gave result.1) }
    ensures stopped { IfErr result.0 (HasStopped (above (length core.old.history.entries) (W.gave watch)) (above (length core.old.history.entries) (W.gave result.1))) }
    ensures went { OnOk result.0 (above (length core.old.history.entries) (W.gave result.1) ≡ above (length core.old.history.entries) (W.gave watch)) }
{
    core.stays_sound();
    let lent = match core.begin(alloc) {
        Ok(lent) => lent,
        Err(_) => return (Err(Halt::NoMemory), watch),
    };
    let mut fresh = Fresh::new();
    let (answer, watch) = read_answer(alloc, kinds, &lent, query, budget, &mut fresh, watch);
    match core.publish(alloc, lent.snapshot().revision(), fresh) {
        Ok(()) => (answer, watch),
        Err(_) => (Err(Halt::NoMemory), watch),
    }
}

/// What a query comes to whose first answer is there.
fn asked_again<K: Ending, W: Watch>(
    alloc: Global,
    core: &mut Core<K>,
    kinds: &mut K,
    query: &K::Query,
    budget: u32,
    first: Answer,
    watch: W,
) -> (Result<Twice, Halt>, W)
    requires fits { IsTrue (K.fits kinds.old (newest_files core.old.history)) }
    requires answer { IsAnswer K.Key.cmp (values_of (K.given (newest_files core.old.history))) K.make K.answers_over query.now budget first }
    requires done { (table : K.Key → ℕ → K.Value) → IsTable K.Key.cmp (values_of (K.given (newest_files core.old.history))) K.make table → IsDone first → (k : K.Key) (f : ℕ) → K.is_input k ≡ false → K.asks_over table query.now budget k f → IsUpToDate (record { cmp = K.Key.cmp; given = K.given; make = K.make; ranked = K.ranked; serves = K.serves }) (newest_files core.old.history) [] core.old.memos k f }
    ensures history { core.new.history ≡ core.old.history }
    ensures first { IfOk result.0 (λ twice. IsAnswer K.Key.cmp (values_of (K.given (newest_files core.old.history))) K.make K.answers_over query.now budget twice.first) }
    ensures second { IfOk result.0 (λ twice. IsAnswer K.Key.cmp (values_of (K.given (newest_files core.old.history))) K.make K.answers_over query.now budget twice.second) }
    ensures nothing { IfOk result.0 (λ twice. IsDone twice.first → twice.computes ≡ 0) }
    ensures gave { GaveMore (W.gave watch) (W.gave result.1) }
    ensures stopped { IfErr result.0 (HasStopped (above (length core.old.history.entries) (W.gave watch)) (above (length core.old.history.entries) (W.gave result.1))) }
{
    each_key_has_a_value::<K>();
    let before = kinds.computes();
    let (second, watch) = answered(alloc, core, kinds, query, budget, watch);
    let computes = kinds.computes().saturating_sub(before);
    match second {
        Ok(second) => (
            Ok(Twice {
                first,
                second,
                computes,
            }),
            watch,
        ),
        Err(halt) => (Err(halt), watch),
    }
}

/// What a query comes to that is asked twice at the newest revision, each time with what was found published, and the watch back.
/// Both answers are those of its definition; where the first one is done, nothing is computed for the second.
///
/// # Errors
/// It was stopped by the first number above the newest revision that the watch gave, or there was no memory.
pub fn answered_twice<K: Ending, W: Watch>(
    alloc: Global,
    core: &mut Core<K>,
    kinds: &mut K,
    query: &K::Query,
    budget: u32,
    watch: W,
) -> (Result<Twice, Halt>, W)
    requires fits { IsTrue (K.fits kinds.old (newest_files core.old.history)) }
    ensures history { core.new.history ≡ core.old.history }
    ensures first { IfOk result.0 (λ twice. IsAnswer K.Key.cmp (values_of (K.given (newest_files core.old.history))) K.make K.answers_over query.now budget twice.first) }
    ensures second { IfOk result.0 (λ twice. IsAnswer K.Key.cmp (values_of (K.given (newest_files core.old.history))) K.make K.answers_over query.now budget twice.second) }
    ensures nothing { IfOk result.0 (λ twice. IsDone twice.first → twice.computes ≡ 0) }
    ensures gave { GaveMore (W.gave watch) (W.gave result.1) }
    ensures stopped { IfErr result.0 (HasStopped (above (length core.old.history.entries) (W.gave watch)) (above (length core.old.history.entries) (W.gave result.1))) }
{
    let (first, watch) = answered(alloc, core, kinds, query, budget, watch);
    match first {
        Ok(first) => asked_again(alloc, core, kinds, query, budget, first, watch),
        Err(halt) => (Err(halt), watch),
    }
}
