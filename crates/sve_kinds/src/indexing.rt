//! The index of a design, made of the elements of all units.
ghost use Rattle.std.specs.Prelude.{◌≡◌, Option, Some, None, IfOk, IfErr, OnOk, IsErr, map};
ghost use Rattle.sve_gist.specs.Gists.{gist_of};
ghost use Rattle.sve_store.specs.Made.{Needs, Done};
ghost use Rattle.sve_store.specs.Told.{Matches, HasStopped};
ghost use Rattle.sve_making.specs.Added.{Adds};
ghost use Rattle.sve_kinds.specs.Passes.{Passes};
ghost use Rattle.sve_kinds.specs.Asked.{HoldsFree, IsAny};
ghost use Rattle.sve_make.specs.Make.{element_told, elements_told, index_made, index_told, then_made, unit_told, units_told};

use crate::asking::{ask, ask_chunks, ask_element};
use std::alloc::Global;
use sve_bytes::Name;
use sve_index::{FileElement, index_of};
use sve_io::Halt;
use sve_key::{Key, Value};
use sve_making::{add_value, units_of};
use sve_store::{Fetch, Keyed};

/// Adds the element of a chunk, where the grammar accepts it.
fn add_element<K: Keyed<Key = Key, Value = Value>, F: Fetch<K>>(
    alloc: Global,
    from: &mut F,
    file: &Name,
    n: u32,
    elements: &mut Vec<FileElement>,
) -> Result<(), Halt>
    ensures passes { Passes F.tells F.keeps F.is_quiet (λ f. K.counted (F.kind f)) F.halted IsAny from.old from.new }
    ensures made { (told : Key → Option Value) → HoldsFree told (F.tells from.old) → OnOk result (Adds (element_told told file.now n) elements.old.items elements.new.items) }
    ensures calm { OnOk result (F.halted from.new ≡ F.halted from.old) }
    ensures halted { (told : Key → Option Value) → Matches told (F.tells from.old) → F.halted from.old ≡ None → (j : Key) → F.halted from.new ≡ Some j → IsErr result × (element_told told file.now n ≡ Needs j) }
    ensures stopped { IfErr result (HasStopped (F.stops from.old) (F.stops from.new)) }
    ensures went { OnOk result (F.stops from.new ≡ F.stops from.old) }
{
    let value = ask_element(alloc, from, file, n)?;
    add_value(file, n, &value, elements)?;
    Ok(())
}

/// Adds the elements of so many chunks.
fn add_elements<K: Keyed<Key = Key, Value = Value>, F: Fetch<K>>(
    alloc: Global,
    from: &mut F,
    file: &Name,
    count: u32,
    elements: &mut Vec<FileElement>,
) -> Result<(), Halt>
    ensures passes { Passes F.tells F.keeps F.is_quiet (λ f. K.counted (F.kind f)) F.halted IsAny from.old from.new }
    ensures made { (told : Key → Option Value) → HoldsFree told (F.tells from.old) → OnOk result (Adds (elements_told told file.now 0 count) elements.old.items elements.new.items) }
    ensures calm { OnOk result (F.halted from.new ≡ F.halted from.old) }
    ensures halted { (told : Key → Option Value) → Matches told (F.tells from.old) → F.halted from.old ≡ None → (j : Key) → F.halted from.new ≡ Some j → IsErr result × (elements_told told file.now 0 count ≡ Needs j) }
    ensures stopped { IfErr result (HasStopped (F.stops from.old) (F.stops from.new)) }
    ensures went { OnOk result (F.stops from.new ≡ F.stops from.old) }
{
    'chunks: for n in 0..count {
        add_element(alloc, from, file, n, elements)?;
    }
    Ok(())
}

/// Adds the elements of a unit.
fn add_unit<K: Keyed<Key = Key, Value = Value>, F: Fetch<K>>(
    alloc: Global,
    from: &mut F,
    file: &Name,
    elements: &mut Vec<FileElement>,
) -> Result<(), Halt>
    ensures passes { Passes F.tells F.keeps F.is_quiet (λ f. K.counted (F.kind f)) F.halted IsAny from.old from.new }
    ensures made { (told : Key → Option Value) → HoldsFree told (F.tells from.old) → OnOk result (Adds (unit_told told file.now) elements.old.items elements.new.items) }
    ensures calm { OnOk result (F.halted from.new ≡ F.halted from.old) }
    ensures halted { (told : Key → Option Value) → Matches told (F.tells from.old) → F.halted from.old ≡ None → (j : Key) → F.halted from.new ≡ Some j → IsErr result × (unit_told told file.now ≡ Needs j) }
    ensures stopped { IfErr result (HasStopped (F.stops from.old) (F.stops from.new)) }
    ensures went { OnOk result (F.stops from.new ≡ F.stops from.old) }
{
    let value = ask_chunks(alloc, from, file)?;
    let count = value.chunks().len() as u32;
    add_elements(alloc, from, file, count, elements)
}

/// The elements of units, in their order and then that of their texts.
fn elements_of<K: Keyed<Key = Key, Value = Value>, F: Fetch<K>>(
    alloc: Global,
    from: &mut F,
    units: &[Name],
) -> Result<Vec<FileElement>, Halt>
    ensures passes { Passes F.tells F.keeps F.is_quiet (λ f. K.counted (F.kind f)) F.halted IsAny from.old from.new }
    ensures made { (told : Key → Option Value) → HoldsFree told (F.tells from.old) → IfOk result (λ all. units_told told units.now ≡ Done (map gist_of all.items)) }
    ensures calm { OnOk result (F.halted from.new ≡ F.halted from.old) }
    ensures halted { (told : Key → Option Value) → Matches told (F.tells from.old) → F.halted from.old ≡ None → (j : Key) → F.halted from.new ≡ Some j → IsErr result × (units_told told units.now ≡ Needs j) }
    ensures stopped { IfErr result (HasStopped (F.stops from.old) (F.stops from.new)) }
    ensures went { OnOk result (F.stops from.new ≡ F.stops from.old) }
{
    let mut elements = Vec::new(alloc);
    'files: for unit in units {
        add_unit(alloc, from, unit, &mut elements)?;
    }
    Ok(elements)
}

/// The index of the design.
pub(crate) fn whole_index<K: Keyed<Key = Key, Value = Value>, F: Fetch<K>>(
    alloc: Global,
    from: &mut F,
) -> Result<Value, Halt>
    ensures passes { Passes F.tells F.keeps F.is_quiet (λ f. K.counted (F.kind f)) F.halted IsAny from.old from.new }
    ensures made { (told : Key → Option Value) → HoldsFree told (F.tells from.old) → IfOk result (λ v. then_made (index_told told) index_made ≡ Done v) }
    ensures calm { OnOk result (F.halted from.new ≡ F.halted from.old) }
    ensures halted { (told : Key → Option Value) → Matches told (F.tells from.old) → F.halted from.old ≡ None → (j : Key) → F.halted from.new ≡ Some j → IsErr result × (then_made (index_told told) index_made ≡ Needs j) }
    ensures stopped { IfErr result (HasStopped (F.stops from.old) (F.stops from.new)) }
    ensures went { OnOk result (F.stops from.new ≡ F.stops from.old) }
{
    let value = ask(alloc, from, &Key::Names)?;
    let units = units_of(alloc, value.names())?;
    let elements = elements_of(alloc, from, &units)?;
    let index = index_of(alloc, &elements)?;
    Ok(Value::Index(index))
}
