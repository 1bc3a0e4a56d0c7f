//! One try at the value of a key, over the values that are known by now.
ghost use Rattle.std.specs.Prelude.{◌≡◌, ℕ, List, [], Option, Some, None, IfOk, IsErr, refl, false};
ghost use Rattle.std.proofs.Common.{◌∙◌};
ghost use Rattle.sve_text.specs.Files.{FilesValue};
ghost use Rattle.sve_store.specs.Made.{value_in};
ghost use Rattle.sve_store.specs.Tries.{IsTried, count_after};

use crate::kinds::{Fetch, Keyed, Kinds};
use crate::known::Known;
use std::alloc::{AllocError, Global};
use std::sync::Arc;
use sve_bytes::NoMemory;
use sve_io::Halt;

/// What a try came to.
#[derive(Drop)]
pub enum Tried<Q, V> {
    /// The value.
    Came(V),
    /// It needs the value of this key first.
    Wants(Q),
}

/// What is known in one try. At a key that is not known it halts, and notes which.
struct Try<'a, K: Keyed> {
    kinds: &'a mut K,
    known: &'a Known<K::Key, K::Value>,
    missing: Option<K::Key>,
}

impl<'a, K: Keyed> Fetch<K> for Try<'a, K> {
    ghost kind = { λ s. s.kinds.now };

    ghost tells = { λ s k fuel v. value_in K.Key.cmp s.known.now k ≡ Some v };

    ghost keeps = { λ s t. (t.kinds.ghost_name ≡ s.kinds.ghost_name) × ((files : FilesValue) → K.fits t.kinds.now files ≡ K.fits s.kinds.now files) };

    ghost is_quiet = { λ s k fuel. Unit {0} };

    ghost remembers = { Unit {0} };

    ghost halted = { λ s. s.missing };

    ghost stops = { λ s. [] };

    ghost asked = { λ s. None };

    fn kinds(&self) -> &K {
        self.kinds
    }

    fn tick(&mut self) {
        self.kinds.tick();
    }

    fn fetch(&mut self, alloc: Global, k: &K::Key, _fuel: u32) -> Result<Arc<K::Value>, Halt> {
        match self.known.find(k) {
            Some(value) => match Arc::try_clone(value) {
                Ok(value) => Ok(value),
                Err(AllocError) => Err(Halt::NoMemory),
            },
            None => match K::copy_key(alloc, k) {
                Ok(key) => {
                    self.missing = Some(key);
                    Err(Halt::NoMemory)
                }
                Err(AllocError) => Err(Halt::NoMemory),
            },
        }
    }

    ghost keeps_itself = { λ s. (refl, λ files. refl) };

    ghost keeps_on = { λ before now after first second. (second.0 ∙ first.0, λ files. second.1 files ∙ first.1 files) };
}

impl<'a, K: Kinds> Try<'a, K> {
    fn run(
        &mut self,
        alloc: Global,
        key: &K::Key,
        fuel: u32,
    ) -> Result<Tried<K::Key, K::Value>, NoMemory>
        requires computed { K.is_input key.now ≡ false }
        requires begun { self.old.missing ≡ None }
        ensures same_reference { self.new.kinds.ghost_name ≡ self.old.kinds.ghost_name }
        ensures fit { (files : FilesValue) → K.fits self.new.kinds.now files ≡ K.fits self.old.kinds.now files }
        ensures tried { IfOk result (IsTried (K.make key.now fuel (value_in K.Key.cmp self.old.known.now))) }
        ensures count { IfOk result (λ tried. K.counted self.new.kinds.now ≡ count_after tried (K.counted self.old.kinds.now)) }
        ensures no_count { IsErr result → K.counted self.new.kinds.now ≡ K.counted self.old.kinds.now }
    {
        match K::compute(alloc, key, fuel, self) {
            Ok(value) => Ok(Tried::Came(value)),
            Err(_) => match self.missing.take() {
                Some(key) => Ok(Tried::Wants(key)),
                None => Err(AllocError),
            },
        }
    }

    fn end(self)
        ensures { self.exit.0.now ≡ self.entry.kinds.now }
    {
        let Try {
            kinds: _,
            known: _,
            missing: _,
        } = self;
    }
}

/// Tries for the value of a key that is no input, over the values that are known by now. A value that it comes to is
/// counted.
///
/// # Errors
/// Only for want of memory.
pub fn one_try<K: Kinds>(
    alloc: Global,
    kinds: &mut K,
    known: &Known<K::Key, K::Value>,
    key: &K::Key,
    fuel: u32,
) -> Result<Tried<K::Key, K::Value>, NoMemory>
    requires computed { K.is_input key.now ≡ false }
    ensures fit { (files : FilesValue) → K.fits kinds.new files ≡ K.fits kinds.old files }
    ensures tried { IfOk result (IsTried (K.make key.now fuel (value_in K.Key.cmp known.now))) }
    ensures count { IfOk result (λ tried. K.counted kinds.new ≡ count_after tried (K.counted kinds.old)) }
    ensures no_count { IsErr result → K.counted kinds.new ≡ K.counted kinds.old }
{
    let mut from = Try {
        kinds: &mut *kinds,
        known,
        missing: None,
    };
    let result = from.run(alloc, key, fuel);
    from.end();
    result
}
