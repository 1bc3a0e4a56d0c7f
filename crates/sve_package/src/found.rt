ghost use Rattle.std.specs.Prelude.{◌≡◌, IfOk, option_map};
ghost use Rattle.sve_package.specs.Packages.{cyclic_facts, cyclic_note, facts_of, only_noted, package_facts, package_in, package_of_design};

use crate::Typing;
use crate::items::with_items;
use std::alloc::Global;
use sve_bytes::{List, Name, NoMemory, Path};
use sve_contents::{Contents, Finished};
use sve_diag::{Code, Note};
use sve_facts::{BodyScope, Facts};
use sve_known::{Known, name_at};
use sve_table::Table;
use sve_tree::{Design, Element, Package, Word};

/// The facts of a package that has these contents.
fn facts_of(alloc: Global, contents: Contents) -> Result<Facts, NoMemory>
    ensures { IfOk result (λ f. f ≡ facts_of contents) }
{
    let Finished { scope, notes } = contents.finished();
    let path = Path {
        steps: List::of(Vec::new(alloc)),
    };
    let mut scopes = Vec::new(alloc);
    scopes.push(BodyScope { path, scope })?;
    let mut facts = Facts::none(alloc);
    facts.scopes = List::of(scopes);
    facts.notes = notes;
    Ok(facts)
}

/// The package, where a design is one.
fn package_of_design(design: &Design) -> Option<&Package>
    ensures { option_map (λ p. p.now) result ≡ package_of_design design.now }
{
    match design {
        Design::Module { .. } => None,
        Design::Interface { .. } => None,
        Design::Package { unit } => Some(unit),
    }
}

/// The package of an element, where it has one.
fn package_in(element: &Element) -> Option<&Package>
    ensures { option_map (λ p. p.now) result ≡ package_in element.now.design }
{
    match &element.design {
        Some(design) => package_of_design(design),
        None => None,
    }
}

/// What is found of the package of an element, which stands in this chunk of a file: its items in the order of its text, each over
/// what those in front of it left and over the packages that are known (IEEE 1800-2017, clause 26). It sees nothing of a
/// compilation unit's scope (own). Of an element without a package nothing is found.
///
/// # Errors
/// For want of memory alone.
pub fn package<T: Typing>(
    alloc: Global,
    typing: &T,
    packages: &Table<Known>,
    file: &Name,
    chunk: u32,
    element: &Element,
) -> Result<Facts, NoMemory>
    ensures { IfOk result (λ f. f ≡ package_facts (T.reads typing.now) packages.now file.now chunk element.now) }
{
    match package_in(element) {
        Some(unit) => {
            let words = element.words.as_slice();
            let contents = Contents::new(alloc, file.copy()?, chunk);
            let contents = with_items(alloc, typing, packages, words, contents, &unit.items)?;
            facts_of(alloc, contents)
        }
        None => Ok(Facts::none(alloc)),
    }
}

/// What is to be said of a package on a cycle of imports, or that leads to one: this, at its name.
fn cyclic_note(file: &Name, chunk: u32, words: &[Word], token: u32) -> Result<Note, NoMemory>
    ensures { IfOk result (λ n. n ≡ cyclic_note file.now chunk words.now token) }
{
    let arg = match name_at(words, token) {
        Some(name) => Some(name.copy()?),
        None => None,
    };
    Ok(Note {
        file: file.copy()?,
        chunk,
        token,
        code: Code::N08,
        arg,
    })
}

/// The facts with a note alone.
fn noted(alloc: Global, note: Note) -> Result<Facts, NoMemory>
    ensures { IfOk result (λ f. f ≡ only_noted note) }
{
    let mut notes = Vec::new(alloc);
    notes.push(note)?;
    let mut facts = Facts::none(alloc);
    facts.notes = List::of(notes);
    Ok(facts)
}

/// What is found of the package of an element where it is on a cycle of imports, or leads to one: no scope, and that this is so, at
/// its name (N08; own).
///
/// # Errors
/// For want of memory alone.
pub fn cyclic_package(
    alloc: Global,
    file: &Name,
    chunk: u32,
    element: &Element,
) -> Result<Facts, NoMemory>
    ensures { IfOk result (λ f. f ≡ cyclic_facts file.now chunk element.now) }
{
    match package_in(element) {
        Some(unit) => {
            let words = element.words.as_slice();
            noted(alloc, cyclic_note(file, chunk, words, unit.name)?)
        }
        None => Ok(Facts::none(alloc)),
    }
}
