ghost use Rattle.std.specs.Prelude.{true, refl};
ghost use Rattle.sve_key.specs.KeyOrder.{rank_of, one_key};
ghost use Rattle.sve_key.specs.declared.key.Key.TheVariants.{Text, Names, Tokens, Chunks, Element, Index};
ghost use Rattle.sve_make.specs.Make.{given_of, input_of};
ghost use Rattle.sve_make.proofs.Stamps.{stamps};

use std::alloc::Global;
use std::sync::Arc;
use sve_bytes::NoMemory;
use sve_key::{Key, Value};
use sve_making::input;
use sve_store::Keyed;
use sve_text::Files;

/// The kinds of key of this language, with the count of the values that were computed.
#[derive(Drop)]
pub struct Svq {
    pub(crate) computes: u64,
}

impl Keyed for Svq {
    type Key = Key;

    type Value = Value;

    ghost counted = { λ s. s.computes };

    ghost fits = { λ s files. true };

    ghost ranked = { rank_of };

    ghost is_input = { input_of };

    ghost given = { given_of };

    // No value depends on the fuel.
    ghost serves = { λ v fuel. true };

    ghost read_at = { λ v fuel. v };

    fn computes(&self) -> u64 {
        self.computes
    }

    fn tick(&mut self) {
        self.computes = self.computes.saturating_add(1);
    }

    fn copy_key(_alloc: Global, k: &Key) -> Result<Key, NoMemory> {
        k.copy()
    }

    fn rank(k: &Key) -> u32 {
        k.rank()
    }

    fn input(
        &self,
        alloc: Global,
        k: &Key,
        files: &Files,
    ) -> Result<Option<(Arc<Value>, u64)>, NoMemory> {
        input(alloc, k, files)
    }

    fn answers(_v: &Value, _fuel: u32) -> bool {
        true
    }

    fn same(a: &Value, b: &Value) -> bool {
        a.is(b)
    }

    ghost one_key = { one_key };

    ghost lower_fuel = { λ v f g low serves. refl };

    ghost inputs = { λ files. elim [ Text n ↦ refl | Names ↦ refl | Tokens n ↦ refl | Chunks n ↦ refl | Element n i ↦ refl | Index ↦ refl ] };

    ghost stamps = { stamps };
}

/// What threads may share: an `impl` is refused where they may not.
trait IsShared: Send + Sync {}

impl IsShared for Svq {}
