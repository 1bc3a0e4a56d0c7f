ghost use Rattle.std.specs.Prelude.{◌≡◌, ◌<◌, IfOk, length, option_map, slice_get};
ghost use Rattle.sve_imports.specs.Naming.{is_colons_there, own_words, package_at, packages_in, unit_words};

use crate::parts::{own_words, unit_words};
use std::alloc::Global;
use sve_bytes::{Name, NoMemory};
use sve_table::Table;
use sve_token::Kind;
use sve_tree::{Element, Word};

/// Whether the word at a place is `::`.
fn is_colons(words: &[Word], place: usize) -> bool
    ensures { result ≡ is_colons_there (slice_get words.now place) }
{
    match words.get(place) {
        Some(word) => word.kind == Kind::ColonColon,
        None => false,
    }
}

/// The name at a place, where `::` stands behind it.
fn package_at(words: &[Word], place: usize) -> Option<&Name>
    requires { place < length words.now }
    ensures { option_map (λ n. n.now) result ≡ package_at words.now place }
{
    if is_colons(words, place + 1) {
        words[place].name()
    } else {
        None
    }
}

/// The names in these words that stand in front of `::`, each once.
#[tactic(auto, using(crate::proofs::Words::goes_on, crate::proofs::Words::passes, crate::proofs::Words::none_left))]
fn packages_in(alloc: Global, words: &[Word]) -> Result<Table<Name>, NoMemory>
    ensures { IfOk result (λ names. names ≡ packages_in words.now) }
{
    let mut names = Table::new(alloc);
    'words: for place in 0..words.len() {
        if let Some(name) = package_at(words, place) {
            names.add(name.copy()?)?;
        }
    }
    Ok(names)
}

/// The names of a table.
#[tactic(auto, using(crate::proofs::Words::take_next))]
fn listed(alloc: Global, table: &Table<Name>) -> Result<Vec<Name>, NoMemory>
    ensures { IfOk result (λ names. names.items ≡ table.now) }
{
    let mut names = Vec::new(alloc);
    'names: for place in 0..table.len() {
        names.push(table.at(place).copy()?)?;
    }
    Ok(names)
}

/// The packages that an element names, each once, in the order of its text: by an import, or in front of `::` (IEEE 1800-2017,
/// 26.3). Of the element of a package it is the package's own text that counts: a package does not see the items of the compilation
/// unit's scope in front of it (own).
///
/// # Errors
/// For want of memory alone.
pub fn imports(alloc: Global, element: &Element) -> Result<Vec<Name>, NoMemory>
    ensures { IfOk result (λ names. names.items ≡ packages_in (own_words element.now)) }
{
    let found = packages_in(alloc, own_words(element))?;
    listed(alloc, &found)
}

/// The packages that the items of the compilation unit's scope in an element name, each once, in the order of the text (26.3).
///
/// # Errors
/// For want of memory alone.
pub fn unit_imports(alloc: Global, element: &Element) -> Result<Vec<Name>, NoMemory>
    ensures { IfOk result (λ names. names.items ≡ packages_in (unit_words element.now)) }
{
    let found = packages_in(alloc, unit_words(element))?;
    listed(alloc, &found)
}
