ghost use Rattle.std.specs.Prelude.{◌≡◌, ◌++◌, IfOk, OnOk};
ghost use Rattle.sve_index.specs.Gathered.{after, nothing_gathered, root_in};

use crate::def::{Def, add_def_at};
use crate::designs::{definition_token, may_be_top, package_token};
use crate::instances::add_instances;
use crate::labels::add_label_notes;
use crate::source::{FileElement, called};
use std::alloc::Global;
use sve_bytes::{List, Name, NoMemory};
use sve_diag::Note;
use sve_mention::mentions;
use sve_table::Table;

/// What is known once some elements have been seen.
#[derive(Drop)]
pub(crate) struct Gathered {
    /// The first module or interface of each name.
    pub(crate) definitions: Table<Def>,
    /// The first package of each name.
    pub(crate) packages: Table<Def>,
    /// The names that were instantiated.
    pub(crate) instantiated: Table<Name>,
    /// The names of the modules that are tops unless they are instantiated.
    pub(crate) roots: List<Name>,
    /// The notes.
    pub(crate) notes: List<Note>,
}

/// Nothing is known at first.
pub(crate) fn nothing_gathered(alloc: Global) -> Gathered
    ensures { result ≡ nothing_gathered }
{
    Gathered {
        definitions: Table::new(alloc),
        packages: Table::new(alloc),
        instantiated: Table::new(alloc),
        roots: List::of(Vec::new(alloc)),
        notes: List::of(Vec::new(alloc)),
    }
}

/// Adds the name of an element's module, where that is new and the module may be a top.
fn add_root(is_new: bool, source: &FileElement, roots: &mut Vec<Name>) -> Result<(), NoMemory>
    ensures { OnOk result (roots.new.items ≡ roots.old.items ++ root_in is_new source.now) }
{
    let element = source.element();
    if !is_new || !may_be_top(&element.design) {
        return Ok(());
    }
    match called(element.words.as_slice(), definition_token(&element.design)) {
        Some(name) => {
            roots.push(name.copy()?)?;
            Ok(())
        }
        None => Ok(()),
    }
}

/// Adds what one element more tells to what is known. Its tree is gone over once.
fn add_element(
    alloc: Global,
    source: &FileElement,
    definitions: &mut Table<Def>,
    packages: &mut Table<Def>,
    instantiated: &mut Table<Name>,
    roots: &mut Vec<Name>,
    notes: &mut Vec<Note>,
) -> Result<(), NoMemory>
    ensures { OnOk result (record { definitions = definitions.new; packages = packages.new; instantiated = instantiated.new; roots = roots.new.items; notes = notes.new.items } ≡ after (record { definitions = definitions.old; packages = packages.old; instantiated = instantiated.old; roots = roots.old.items; notes = notes.old.items }) source.now) }
{
    let element = source.element();
    let definition = definition_token(&element.design);
    let is_new = add_def_at(definitions, source, definition, notes)?;
    add_def_at(packages, source, package_token(&element.design), notes)?;
    add_root(is_new, source, roots)?;
    let found = mentions(alloc, element)?;
    add_instances(element.words.as_slice(), found.as_slice(), instantiated)?;
    add_label_notes(source, found.as_slice(), notes)?;
    Ok(())
}

/// What is known after one element more.
pub(crate) fn after(
    alloc: Global,
    gathered: Gathered,
    source: &FileElement,
) -> Result<Gathered, NoMemory>
    ensures { IfOk result (λ g. g ≡ after gathered source.now) }
{
    let Gathered {
        mut definitions,
        mut packages,
        mut instantiated,
        roots,
        notes,
    } = gathered;
    let mut roots = roots.into_vec();
    let mut notes = notes.into_vec();
    add_element(
        alloc,
        source,
        &mut definitions,
        &mut packages,
        &mut instantiated,
        &mut roots,
        &mut notes,
    )?;
    Ok(Gathered {
        definitions,
        packages,
        instantiated,
        roots: List::of(roots),
        notes: List::of(notes),
    })
}
