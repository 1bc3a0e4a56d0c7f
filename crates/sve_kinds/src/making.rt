//! What each computed kind is made of.
ghost use Rattle.std.specs.Prelude.{◌≡◌, Option, Some, None, IfOk, IfErr, OnOk, IsErr, false};
ghost use Rattle.sve_store.specs.Made.{Needs, Done};
ghost use Rattle.sve_store.specs.Told.{Matches, HasStopped};
ghost use Rattle.sve_key.specs.declared.key.Key.TheVariants.{Tokens, Chunks, Element};
ghost use Rattle.sve_kinds.specs.Passes.{Passes};
ghost use Rattle.sve_kinds.specs.Asked.{HoldsFree, IsAny};
ghost use Rattle.sve_make.specs.Make.{make_of, input_of};

use crate::asking::{ask_chunks, ask_tokens};
use crate::expanding::expansion;
use crate::indexing::whole_index;
use std::alloc::Global;
use sve_bytes::Name;
use sve_io::Halt;
use sve_key::{Key, Value};
use sve_making::{file_chunks, file_reading, file_tokens};
use sve_store::{Fetch, Keyed};

/// The tokens of a file and of what it includes.
#[tactic(auto, using(crate::proofs::Calls::as_any, crate::proofs::Calls::never_halted))]
fn tokens_value<K: Keyed<Key = Key, Value = Value>, F: Fetch<K>>(
    alloc: Global,
    from: &mut F,
    name: &Name,
) -> Result<Value, Halt>
    ensures passes { Passes F.tells F.keeps F.is_quiet (λ f. K.counted (F.kind f)) F.halted IsAny from.old from.new }
    ensures made { (told : Key → Option Value) → HoldsFree told (F.tells from.old) → IfOk result (λ v. make_of (Tokens name.now) 0 told ≡ Done v) }
    ensures calm { F.halted from.old ≡ None → OnOk result (F.halted from.new ≡ None) }
    ensures halted { (told : Key → Option Value) → Matches told (F.tells from.old) → F.halted from.old ≡ None → (j : Key) → F.halted from.new ≡ Some j → IsErr result × (make_of (Tokens name.now) 0 told ≡ Needs j) }
    ensures stopped { IfErr result (HasStopped (F.stops from.old) (F.stops from.new)) }
    ensures went { OnOk result (F.stops from.new ≡ F.stops from.old) }
{
    let text = expansion(alloc, from, name)?;
    let file = file_tokens(alloc, &text)?;
    Ok(Value::Tokens(file))
}

/// The chunks of a file.
#[tactic(auto, using(crate::proofs::Calls::as_any, crate::proofs::Calls::never_halted))]
fn chunks_value<K: Keyed<Key = Key, Value = Value>, F: Fetch<K>>(
    alloc: Global,
    from: &mut F,
    name: &Name,
) -> Result<Value, Halt>
    ensures passes { Passes F.tells F.keeps F.is_quiet (λ f. K.counted (F.kind f)) F.halted IsAny from.old from.new }
    ensures made { (told : Key → Option Value) → HoldsFree told (F.tells from.old) → IfOk result (λ v. make_of (Chunks name.now) 0 told ≡ Done v) }
    ensures calm { OnOk result (F.halted from.new ≡ F.halted from.old) }
    ensures halted { (told : Key → Option Value) → Matches told (F.tells from.old) → F.halted from.old ≡ None → (j : Key) → F.halted from.new ≡ Some j → IsErr result × (make_of (Chunks name.now) 0 told ≡ Needs j) }
    ensures stopped { IfErr result (HasStopped (F.stops from.old) (F.stops from.new)) }
    ensures went { OnOk result (F.stops from.new ≡ F.stops from.old) }
{
    let value = ask_tokens(alloc, from, name)?;
    let chunks = file_chunks(alloc, value.tokens())?;
    Ok(Value::Chunks(chunks))
}

/// What a chunk of a file is read as.
#[tactic(auto, using(crate::proofs::Calls::as_any, crate::proofs::Calls::never_halted))]
fn element_value<K: Keyed<Key = Key, Value = Value>, F: Fetch<K>>(
    alloc: Global,
    from: &mut F,
    name: &Name,
    n: u32,
) -> Result<Value, Halt>
    ensures passes { Passes F.tells F.keeps F.is_quiet (λ f. K.counted (F.kind f)) F.halted IsAny from.old from.new }
    ensures made { (told : Key → Option Value) → HoldsFree told (F.tells from.old) → IfOk result (λ v. make_of (Element name.now n) 0 told ≡ Done v) }
    ensures calm { OnOk result (F.halted from.new ≡ F.halted from.old) }
    ensures halted { (told : Key → Option Value) → Matches told (F.tells from.old) → F.halted from.old ≡ None → (j : Key) → F.halted from.new ≡ Some j → IsErr result × (make_of (Element name.now n) 0 told ≡ Needs j) }
    ensures stopped { IfErr result (HasStopped (F.stops from.old) (F.stops from.new)) }
    ensures went { OnOk result (F.stops from.new ≡ F.stops from.old) }
{
    let file = ask_tokens(alloc, from, name)?;
    let all = ask_chunks(alloc, from, name)?;
    let reading = file_reading(alloc, file.tokens(), all.chunks(), n)?;
    Ok(Value::Element(reading))
}

/// The value of a computed key, over what is told of the keys that it needs.
///
/// # Errors
/// The object stopped the call, can tell nothing of a key that is needed, or there was no memory.
pub fn made<K: Keyed<Key = Key, Value = Value>, F: Fetch<K>>(
    alloc: Global,
    from: &mut F,
    k: &Key,
) -> Result<Value, Halt>
    requires { input_of k.now ≡ false }
    ensures passes { Passes F.tells F.keeps F.is_quiet (λ f. K.counted (F.kind f)) F.halted IsAny from.old from.new }
    ensures made { (told : Key → Option Value) → HoldsFree told (F.tells from.old) → IfOk result (λ v. make_of k.now 0 told ≡ Done v) }
    ensures calm { F.halted from.old ≡ None → OnOk result (F.halted from.new ≡ None) }
    ensures halted { (told : Key → Option Value) → Matches told (F.tells from.old) → F.halted from.old ≡ None → (j : Key) → F.halted from.new ≡ Some j → IsErr result × (make_of k.now 0 told ≡ Needs j) }
    ensures stopped { IfErr result (HasStopped (F.stops from.old) (F.stops from.new)) }
    ensures went { OnOk result (F.stops from.new ≡ F.stops from.old) }
{
    match k {
        Key::Text(_) => unreachable!(),
        Key::Names => unreachable!(),
        Key::Tokens(name) => tokens_value(alloc, from, name),
        Key::Chunks(name) => chunks_value(alloc, from, name),
        Key::Element(name, n) => element_value(alloc, from, name, *n),
        Key::Index => whole_index(alloc, from),
    }
}
