//! Values and answers from nothing.
ghost use Rattle.std.specs.Prelude.{◌≡◌, ℕ, List, [], Option, None, IfOk, IsTrue, refl, false};
ghost use Rattle.std.proofs.Common.{◌∙◌};
ghost use Rattle.std.specs.Arc.{arc_value};
ghost use Rattle.sve_text.specs.Files.{FilesValue};
ghost use Rattle.sve_store.specs.Made.{values_of};
ghost use Rattle.sve_store.specs.Values.{IsValue, IsAnswer};

use crate::answer::Answer;
use crate::kinds::{Ending, Fetch, Start};
use crate::known::Known;
use crate::snapshot::Snapshot;
use crate::tries::{Tried, one_try};
use std::alloc::{AllocError, Global};
use std::sync::Arc;
use sve_bytes::NoMemory;
use sve_io::Halt;
use sve_text::Files;

/// The value of a key at these files, computed from nothing.
fn value_of<K: Ending>(
    alloc: Global,
    kinds: &mut K,
    files: &Files,
    key: &K::Key,
    fuel: u32,
) -> Result<Arc<K::Value>, NoMemory>
    requires { IsTrue (K.fits kinds.old files.now) }
    ensures fit { (all : FilesValue) → K.fits kinds.new all ≡ K.fits kinds.old all }
    ensures value { IfOk result (λ v. IsValue K.Key.cmp (values_of (K.given files.now)) K.make key.now fuel (arc_value v)) }
{
    if let Some((value, _)) = kinds.input(alloc, key, files)? {
        return Ok(value);
    }
    let mut known: Known<K::Key, K::Value> = Known::new(alloc);
    'tries: loop {
        match one_try(alloc, kinds, &known, key, fuel)? {
            Tried::Came(value) => return Ok(Arc::new(alloc, value)?),
            Tried::Wants(needed) => {
                let value = value_of(alloc, kinds, files, &needed, 0)?;
                known.put(alloc, needed, value)?;
            }
        }
    }
}

/// Tells each key's value at the files of a snapshot, and computes it anew each time. It never stops a call. It is
/// slow.
pub struct Plain<'a, K: Ending> {
    kinds: &'a mut K,
    snapshot: &'a Snapshot<K>,
    ghost fits: { IsTrue (K.fits kinds.now snapshot.now.files) },
}

impl<'a, K: Ending> Plain<'a, K> {
    /// It computes under the count of `kinds`, on condition that these may serve for the snapshot's files.
    pub fn new(kinds: &'a mut K, snapshot: &'a Snapshot<K>) -> Plain<'a, K>
        requires { IsTrue (K.fits kinds.old snapshot.now.files) }
        ensures same_reference { result.kinds.ghost_name ≡ kinds.entry.ghost_name }
        ensures kinds { result.kinds.now ≡ kinds.old }
        ensures snapshot { result.snapshot.now ≡ snapshot.now }
    {
        Plain { kinds, snapshot }
    }

    /// Lets the kinds go, as they are by now.
    pub fn end(self)
        ensures { self.exit.0.now ≡ self.entry.kinds.now }
    {
        let Plain {
            kinds: _,
            snapshot: _,
        } = self;
    }
}

impl<'a, K: Ending> Fetch<K> for Plain<'a, K> {
    ghost kind = { λ s. s.kinds.now };

    ghost tells = { λ s k fuel v. IsValue K.Key.cmp (values_of (K.given s.snapshot.now.files)) K.make k fuel v };

    ghost keeps = { λ s t. (t.kinds.ghost_name ≡ s.kinds.ghost_name) × (t.snapshot.now.files ≡ s.snapshot.now.files) };

    ghost is_quiet = { λ s k fuel. ⊥ };

    ghost remembers = { ⊥ };

    ghost halted = { λ s. None };

    ghost stops = { λ s. [] };

    ghost asked = { λ s. None };

    fn kinds(&self) -> &K {
        self.kinds
    }

    fn tick(&mut self) {
        self.kinds.tick();
    }

    fn fetch(&mut self, alloc: Global, k: &K::Key, fuel: u32) -> Result<Arc<K::Value>, Halt> {
        match value_of(alloc, self.kinds, self.snapshot.files(), k, fuel) {
            Ok(value) => Ok(value),
            Err(AllocError) => Err(Halt::NoMemory),
        }
    }

    ghost keeps_itself = { λ s. (refl, refl) };

    ghost keeps_on = { λ before now after first second. (second.0 ∙ first.0, second.1 ∙ first.1) };
}

/// The answer of a query at the files of a snapshot, within a budget, computed from nothing.
///
/// # Errors
/// Only for want of memory.
pub fn plain_answer<K: Start>(
    alloc: Global,
    snapshot: &Snapshot<K>,
    query: &K::Query,
    budget: u32,
) -> Result<Answer, NoMemory>
    ensures { IfOk result (λ answer. IsAnswer K.Key.cmp (values_of (K.given snapshot.now.files)) K.make K.answers_over query.now budget answer) }
{
    let mut kinds = K::start(snapshot.files());
    let mut from = Plain::new(&mut kinds, snapshot);
    let result = K::answer(alloc, query, budget, &mut from);
    from.end();
    match result {
        Ok(answer) => Ok(answer),
        Err(_) => Err(AllocError),
    }
}
