ghost use Rattle.std.specs.Prelude.{◌≡◌, ◌↔◌, ℕ, List as Items, IfOk, is_some, not};
ghost use Rattle.std.specs.List.{Contains, filter, fold};
ghost use Rattle.sve_table.specs.Tables.{item_of};
ghost use Rattle.sve_index.specs.Instances.{itself};
ghost use Rattle.sve_index.specs.Gathered.{after, index_from, nothing_gathered};
ghost use Rattle.sve_index.specs.Tops.{IsTop};
ghost use Rattle.sve_index.specs.Whole.{index_of};

use crate::def::Def;
use crate::gathered::{Gathered, after, nothing_gathered};
use crate::source::FileElement;
use std::alloc::Global;
use sve_bytes::{List, Name, NoMemory};
use sve_diag::Note;
use sve_table::Table;

/// The index of a design: what it defines by name, which modules are its tops, and what is said of names and labels.
#[derive(Drop)]
pub struct Index {
    /// The first module or interface of each name, in the order of the elements (IEEE 1800-2017, 3.13).
    pub definitions: Table<Def>,
    /// The first package of each name, in the order of the elements.
    pub packages: Table<Def>,
    /// The modules that no element instantiates and that have no parameter without a default, in the order of the elements
    /// (23.3.1 and 6.20.1).
    pub tops: List<Name>,
    /// What is said of the elements, in their order: of each a definition or a package whose name an earlier one has (N03), then
    /// its labels behind end words that are not the name of what ends (S04), in the order of its text.
    pub diags: List<Note>,
}

/// Whether the name is in the table.
fn is_among(name: &Name, table: &Table<Name>) -> bool
    ensures { result ≡ is_some (item_of itself name.now table.now) }
{
    match table.get(name) {
        Some(_) => true,
        None => false,
    }
}

/// The names that are not in the table.
fn not_among(alloc: Global, names: &[Name], table: &Table<Name>) -> Result<Vec<Name>, NoMemory>
    ensures { IfOk result (λ left. left.items ≡ filter (λ name. not (is_some (item_of itself name table.now))) names.now) }
{
    let mut left = Vec::new(alloc);
    for name in names {
        if !is_among(name, table) {
            left.push(name.copy()?)?;
        }
    }
    Ok(left)
}

/// The index of what was gathered from all elements.
fn index_from(alloc: Global, gathered: Gathered) -> Result<Index, NoMemory>
    ensures { IfOk result (λ index. index ≡ index_from gathered) }
{
    let tops = not_among(alloc, gathered.roots.items(), &gathered.instantiated)?;
    let Gathered {
        definitions,
        packages,
        instantiated: _,
        roots: _,
        notes,
    } = gathered;
    Ok(Index {
        definitions,
        packages,
        tops: List::of(tops),
        diags: notes,
    })
}

/// What is known once all elements have been seen, in their order.
fn all_gathered(alloc: Global, elements: &[FileElement]) -> Result<Gathered, NoMemory>
    ensures { IfOk result (λ g. g ≡ fold after nothing_gathered elements.now) }
{
    let mut gathered = nothing_gathered(alloc);
    for source in elements {
        gathered = after(alloc, gathered, source)?;
    }
    Ok(gathered)
}

/// The index of a design's elements, which stand in the order of their files' names and in a file in that of its text. Of each
/// name the first module or interface counts, and the first package; each other gets N03 at its name. A label behind an end word
/// that is not the name of what ends gets S04, also where that has no name (IEEE 1800-2017, 9.3.4). A top is a module that no
/// instantiation of any element names, be it in a generate block that is never selected, and that has no parameter without a
/// default (23.3.1 and 6.20.1).
///
/// Each tree is gone over once, and names are found by a table.
///
/// # Errors
/// For want of memory alone.
pub fn index_of(alloc: Global, elements: &[FileElement]) -> Result<Index, NoMemory>
    ensures index { IfOk result (λ index. index ≡ index_of elements.now) }
    ensures tops { IfOk result (λ index. (name : Items ℕ) → Contains index.tops name ↔ IsTop elements.now name) }
{
    let gathered = all_gathered(alloc, elements)?;
    let index = index_from(alloc, gathered)?;
    Ok(index)
}
