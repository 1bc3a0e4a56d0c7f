//! The names are asked for, and then the text of each of them.
ghost use Rattle.std.specs.Prelude.{◌≡◌, ℕ, IfOk, IfErr, OnOk};
ghost use Rattle.sve_text.specs.Rows.{IsInOrder};
ghost use Rattle.sve_store.specs.Told.{Follows, HasStopped};
ghost use Rattle.sve_kinds.specs.Passes.{Passes};
ghost use Rattle.sve_gathered.specs.Gathered.{IsInput, rows_by};
ghost use Rattle.sve_gathered.specs.Told.{AddsFile, AreTold};

use crate::naming::{add_text, in_order};
use std::alloc::Global;
use sve_bytes::Name;
use sve_io::Halt;
use sve_key::{Key, Value};
use sve_kinds::{ask, ask_text};
use sve_store::{Fetch, Keyed};
use sve_text::{Files, Text};

/// Adds the file of a name, where it is there.
#[tactic(auto, using(crate::proofs::Asking::as_input))]
fn add_file<K: Keyed<Key = Key, Value = Value>, F: Fetch<K>>(
    alloc: Global,
    from: &mut F,
    name: &Name,
    files: &mut Vec<(Name, Text)>,
) -> Result<(), Halt>
    ensures passes { Passes F.tells F.keeps F.is_quiet (λ f. K.counted (F.kind f)) F.halted IsInput from.old from.new }
    ensures added { OnOk result (AddsFile (F.tells from.old) name.now files.old.items files.new.items) }
    ensures stopped { IfErr result (HasStopped (F.stops from.old) (F.stops from.new)) }
    ensures went { OnOk result (F.stops from.new ≡ F.stops from.old) }
{
    let value = ask_text(alloc, from, name)?;
    add_text(alloc, name, &value, files)?;
    Ok(())
}

/// The files of these names that are there, in the order of the names.
fn files_of<K: Keyed<Key = Key, Value = Value>, F: Fetch<K>>(
    alloc: Global,
    from: &mut F,
    names: &[Name],
) -> Result<Vec<(Name, Text)>, Halt>
    ensures passes { Passes F.tells F.keeps F.is_quiet (λ f. K.counted (F.kind f)) F.halted IsInput from.old from.new }
    ensures told { IfOk result (λ files. AreTold (F.tells from.old) names.now files.items) }
    ensures stopped { IfErr result (HasStopped (F.stops from.old) (F.stops from.new)) }
    ensures went { OnOk result (F.stops from.new ≡ F.stops from.old) }
{
    let mut files = Vec::new(alloc);
    'names: for name in names {
        add_file(alloc, from, name, &mut files)?;
    }
    Ok(files)
}

/// The files that an object tells: for the key of the names it is asked once, and once for the key of the text of each name.
/// Their texts are copied.
///
/// # Errors
/// The object stopped the call, can tell nothing of a key that is asked for, or there was no memory.
pub fn gathered<K: Keyed<Key = Key, Value = Value>, F: Fetch<K>>(
    alloc: Global,
    from: &mut F,
) -> Result<Files, Halt>
    ensures passes { Passes F.tells F.keeps F.is_quiet (λ f. K.counted (F.kind f)) F.halted IsInput from.old from.new }
    ensures rows { (table : Key → ℕ → Value) → Follows (λ v fuel. v) table (F.tells from.old) → IfOk result (λ files. files.rows ≡ rows_by table) }
    ensures in_order { IfOk result (λ files. IsInOrder files.rows) }
    ensures stopped { IfErr result (HasStopped (F.stops from.old) (F.stops from.new)) }
    ensures went { OnOk result (F.stops from.new ≡ F.stops from.old) }
{
    let value = ask(alloc, from, &Key::Names)?;
    let names = in_order(alloc, value.names())?;
    let files = files_of(alloc, from, names.items())?;
    Ok(Files::of(alloc, files)?)
}
