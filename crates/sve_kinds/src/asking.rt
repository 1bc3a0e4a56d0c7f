//! One key is asked for.
ghost use Rattle.std.specs.Prelude.{◌≡◌, Option, Some, None, IfOk, IfErr, OnOk, IsErr};
ghost use Rattle.std.specs.Arc.{arc_value};
ghost use Rattle.sve_store.specs.Told.{HaltedAt, HasStopped, Matches};
ghost use Rattle.sve_key.specs.declared.key.Key.TheVariants.{Text, Tokens, Chunks, Element};
ghost use Rattle.sve_kinds.specs.Passes.{Passes};
ghost use Rattle.sve_kinds.specs.Asked.{IsUntold};

use std::alloc::Global;
use std::sync::Arc;
use sve_bytes::Name;
use sve_io::Halt;
use sve_key::{Key, Value};
use sve_store::{Fetch, Keyed};

/// The value of a key whose value costs nothing.
///
/// # Errors
/// The object stopped the call, can tell nothing of the key, or there was no memory.
#[tactic(auto, using(crate::proofs::Calls::missing))]
pub fn ask<K: Keyed<Key = Key, Value = Value>, F: Fetch<K>>(
    alloc: Global,
    from: &mut F,
    key: &Key,
) -> Result<Arc<Value>, Halt>
    ensures passes { Passes F.tells F.keeps F.is_quiet (λ f. K.counted (F.kind f)) F.halted (λ j. j ≡ key.now) from.old from.new }
    ensures found { IfOk result (λ v. F.tells from.old key.now 0 (arc_value v)) }
    ensures calm { OnOk result (F.halted from.new ≡ F.halted from.old) }
    ensures at { (j : Key) → F.halted from.new ≡ Some j → HaltedAt (F.tells from.old) (F.halted from.old) key.now result j }
    ensures halted { (told : Key → Option Value) → Matches told (F.tells from.old) → F.halted from.old ≡ None → (j : Key) → F.halted from.new ≡ Some j → IsErr result × IsUntold told key.now j }
    ensures stopped { IfErr result (HasStopped (F.stops from.old) (F.stops from.new)) }
    ensures went { OnOk result (F.stops from.new ≡ F.stops from.old) }
{
    from.fetch(alloc, key, 0)
}

/// The text of a file.
///
/// # Errors
/// As for `ask`.
#[tactic(auto, using(crate::specs::Passes::passes_itself))]
pub fn ask_text<K: Keyed<Key = Key, Value = Value>, F: Fetch<K>>(
    alloc: Global,
    from: &mut F,
    name: &Name,
) -> Result<Arc<Value>, Halt>
    ensures passes { Passes F.tells F.keeps F.is_quiet (λ f. K.counted (F.kind f)) F.halted (λ j. j ≡ Text name.now) from.old from.new }
    ensures found { IfOk result (λ v. F.tells from.old (Text name.now) 0 (arc_value v)) }
    ensures calm { OnOk result (F.halted from.new ≡ F.halted from.old) }
    ensures halted { (told : Key → Option Value) → Matches told (F.tells from.old) → F.halted from.old ≡ None → (j : Key) → F.halted from.new ≡ Some j → IsErr result × IsUntold told (Text name.now) j }
    ensures stopped { IfErr result (HasStopped (F.stops from.old) (F.stops from.new)) }
    ensures went { OnOk result (F.stops from.new ≡ F.stops from.old) }
{
    let key = Key::Text(name.copy()?);
    ask(alloc, from, &key)
}

/// The tokens of a file.
///
/// # Errors
/// As for `ask`.
#[tactic(auto, using(crate::specs::Passes::passes_itself))]
pub fn ask_tokens<K: Keyed<Key = Key, Value = Value>, F: Fetch<K>>(
    alloc: Global,
    from: &mut F,
    name: &Name,
) -> Result<Arc<Value>, Halt>
    ensures passes { Passes F.tells F.keeps F.is_quiet (λ f. K.counted (F.kind f)) F.halted (λ j. j ≡ Tokens name.now) from.old from.new }
    ensures found { IfOk result (λ v. F.tells from.old (Tokens name.now) 0 (arc_value v)) }
    ensures calm { OnOk result (F.halted from.new ≡ F.halted from.old) }
    ensures halted { (told : Key → Option Value) → Matches told (F.tells from.old) → F.halted from.old ≡ None → (j : Key) → F.halted from.new ≡ Some j → IsErr result × IsUntold told (Tokens name.now) j }
    ensures stopped { IfErr result (HasStopped (F.stops from.old) (F.stops from.new)) }
    ensures went { OnOk result (F.stops from.new ≡ F.stops from.old) }
{
    let key = Key::Tokens(name.copy()?);
    ask(alloc, from, &key)
}

/// The chunks of a file.
///
/// # Errors
/// As for `ask`.
#[tactic(auto, using(crate::specs::Passes::passes_itself))]
pub fn ask_chunks<K: Keyed<Key = Key, Value = Value>, F: Fetch<K>>(
    alloc: Global,
    from: &mut F,
    name: &Name,
) -> Result<Arc<Value>, Halt>
    ensures passes { Passes F.tells F.keeps F.is_quiet (λ f. K.counted (F.kind f)) F.halted (λ j. j ≡ Chunks name.now) from.old from.new }
    ensures found { IfOk result (λ v. F.tells from.old (Chunks name.now) 0 (arc_value v)) }
    ensures calm { OnOk result (F.halted from.new ≡ F.halted from.old) }
    ensures halted { (told : Key → Option Value) → Matches told (F.tells from.old) → F.halted from.old ≡ None → (j : Key) → F.halted from.new ≡ Some j → IsErr result × IsUntold told (Chunks name.now) j }
    ensures stopped { IfErr result (HasStopped (F.stops from.old) (F.stops from.new)) }
    ensures went { OnOk result (F.stops from.new ≡ F.stops from.old) }
{
    let key = Key::Chunks(name.copy()?);
    ask(alloc, from, &key)
}

/// What a chunk of a file is read as.
///
/// # Errors
/// As for `ask`.
#[tactic(auto, using(crate::specs::Passes::passes_itself))]
pub fn ask_element<K: Keyed<Key = Key, Value = Value>, F: Fetch<K>>(
    alloc: Global,
    from: &mut F,
    name: &Name,
    n: u32,
) -> Result<Arc<Value>, Halt>
    ensures passes { Passes F.tells F.keeps F.is_quiet (λ f. K.counted (F.kind f)) F.halted (λ j. j ≡ Element name.now n) from.old from.new }
    ensures found { IfOk result (λ v. F.tells from.old (Element name.now n) 0 (arc_value v)) }
    ensures calm { OnOk result (F.halted from.new ≡ F.halted from.old) }
    ensures halted { (told : Key → Option Value) → Matches told (F.tells from.old) → F.halted from.old ≡ None → (j : Key) → F.halted from.new ≡ Some j → IsErr result × IsUntold told (Element name.now n) j }
    ensures stopped { IfErr result (HasStopped (F.stops from.old) (F.stops from.new)) }
    ensures went { OnOk result (F.stops from.new ≡ F.stops from.old) }
{
    let key = Key::Element(name.copy()?, n);
    ask(alloc, from, &key)
}
