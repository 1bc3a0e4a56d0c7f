//! The preprocessor reads its texts through an object that tells the values of keys.
ghost use Rattle.std.specs.Prelude.{◌≡◌, List, Option, Some, None, IfOk, IfErr, OnOk, IsErr, refl};
ghost use Rattle.std.proofs.Common.{◌∙◌};
ghost use Rattle.sve_store.specs.Made.{Needs};
ghost use Rattle.sve_store.specs.Told.{Matches, HasStopped};
ghost use Rattle.sve_told.specs.Seen.{seen_tells, seen_halted};
ghost use Rattle.sve_key.specs.declared.key.Key.TheVariants.{Text};
ghost use Rattle.sve_kinds.specs.Passes.{Passes, passes_itself, passes_on};
ghost use Rattle.sve_make.specs.Make.{read_text, expanded};
ghost use Rattle.sve_kinds.specs.Asked.{IsText, name_of, Expands, HoldsFree};

use crate::asking::ask;
use std::alloc::Global;
use std::marker::PhantomData;
use std::sync::Arc;
use sve_bytes::{List, Name};
use sve_io::Halt;
use sve_key::{Key, Value};
use sve_prep::{Expanded, Texts, prep};
use sve_store::{Fetch, Keyed};

/// What tells the values of keys, seen as what tells texts.
struct Seen<'a, K, F> {
    from: &'a mut F,
    alloc: Global,
    of: PhantomData<K>,
}

impl<'a, K: Keyed<Key = Key, Value = Value>, F: Fetch<K>> Texts for Seen<'a, K, F> {
    ghost tells = { λ s. seen_tells Text read_text (F.tells s.from.now) };

    ghost keeps = { λ s t. (t.from.ghost_name ≡ s.from.ghost_name) × Passes F.tells F.keeps F.is_quiet (λ f. K.counted (F.kind f)) F.halted IsText s.from.now t.from.now };

    ghost halted = { λ s. seen_halted name_of (F.halted s.from.now) };

    ghost stops = { λ s. F.stops s.from.now };

    ghost asked = { λ s. None };

    #[tactic(auto, using(crate::specs::Passes::passes_itself, crate::proofs::Calls::as_text))]
    fn text(&mut self, name: &Name) -> Result<Option<Arc<List<u8>>>, Halt> {
        let key = Key::Text(name.copy()?);
        let value = ask(self.alloc, &mut *self.from, &key)?;
        Ok(value.text()?)
    }

    ghost keeps_itself = { λ s. (refl, passes_itself (F.keeps_itself s.from.now)) };

    ghost keeps_on = { λ old now new first second. (second.0 ∙ first.0, passes_on (F.keeps_on old.from.now now.from.now new.from.now) first.1 second.1) };
}

impl<'a, K: Keyed<Key = Key, Value = Value>, F: Fetch<K>> Seen<'a, K, F> {
    /// The expansion of a file.
    fn expand(&mut self, file: &Name) -> Result<Expanded, Halt>
        ensures same_reference { self.new.from.ghost_name ≡ self.old.from.ghost_name }
        ensures passes { Passes F.tells F.keeps F.is_quiet (λ f. K.counted (F.kind f)) F.halted IsText self.old.from.now self.new.from.now }
        ensures made { (told : Key → Option Value) → HoldsFree told (F.tells self.old.from.now) → IfOk result (Expands (expanded told file.now)) }
        ensures calm { F.halted self.old.from.now ≡ None → OnOk result (F.halted self.new.from.now ≡ None) }
        ensures halted { (told : Key → Option Value) → Matches told (F.tells self.old.from.now) → F.halted self.old.from.now ≡ None → (j : Key) → F.halted self.new.from.now ≡ Some j → IsErr result × (expanded told file.now ≡ Needs j) }
        ensures stopped { IfErr result (HasStopped (F.stops self.old.from.now) (F.stops self.new.from.now)) }
        ensures went { OnOk result (F.stops self.new.from.now ≡ F.stops self.old.from.now) }
    {
        prep(self.alloc, self, file)
    }

    fn finish(self)
        ensures { self.exit.0.now ≡ self.entry.from.now }
    {
        let Seen {
            from: _,
            alloc: _,
            of: _,
        } = self;
    }
}

/// The expansion of a file, over the texts that are told.
///
/// # Errors
/// The object stopped the call, can tell nothing of a text that is needed, or there was no memory.
pub fn expansion<K: Keyed<Key = Key, Value = Value>, F: Fetch<K>>(
    alloc: Global,
    from: &mut F,
    file: &Name,
) -> Result<Expanded, Halt>
    ensures passes { Passes F.tells F.keeps F.is_quiet (λ f. K.counted (F.kind f)) F.halted IsText from.old from.new }
    ensures made { (told : Key → Option Value) → HoldsFree told (F.tells from.old) → IfOk result (Expands (expanded told file.now)) }
    ensures calm { F.halted from.old ≡ None → OnOk result (F.halted from.new ≡ None) }
    ensures halted { (told : Key → Option Value) → Matches told (F.tells from.old) → F.halted from.old ≡ None → (j : Key) → F.halted from.new ≡ Some j → IsErr result × (expanded told file.now ≡ Needs j) }
    ensures stopped { IfErr result (HasStopped (F.stops from.old) (F.stops from.new)) }
    ensures went { OnOk result (F.stops from.new ≡ F.stops from.old) }
{
    let mut seen: Seen<'_, K, F> = Seen {
        from: &mut *from,
        alloc,
        of: PhantomData,
    };
    let result = seen.expand(file);
    seen.finish();
    result
}
