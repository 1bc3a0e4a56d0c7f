//! Hierarchical names that are not found.
ghost use Rattle.std.specs.Prelude.{◌≡◌, ◌++◌, map, IfOk, OnOk};
ghost use Rattle.std.specs.List.{flat_map};
ghost use Rattle.sve_hier.specs.Instances.{instance_value};
ghost use Rattle.sve_hier.specs.Places.{entry_at};
ghost use Rattle.sve_diagnostics.specs.Missing.{all_missing, first_name, instance_of, missing_in, missing_note, missing_of};

use std::alloc::Global;
use sve_bytes::{Name, NoMemory, Path};
use sve_design::inside;
use sve_diag::{Code, Note};
use sve_facts::{BodyScope, HierarchicalUse};
use sve_hier::{Hierarchy, Instance, opened};
use sve_survey::Surveyed;

/// The instances among which names are sought.
fn opened_all(alloc: Global, instances: &[Surveyed]) -> Result<Vec<Instance>, NoMemory>
    ensures { IfOk result (λ is. map instance_value is.items ≡ map instance_of instances.now) }
{
    let mut all = Vec::new(alloc);
    'instances: for instance in instances {
        all.push(opened(alloc, instance.visit(), instance.facts())?)?;
    }
    Ok(all)
}

/// The name of the first step of a path.
fn first_name(path: &Path) -> Result<Option<Name>, NoMemory>
    ensures { IfOk result (λ name. name ≡ first_name path.now.steps) }
{
    match path.steps.items().first() {
        Some(step) => Ok(Some(step.name.copy()?)),
        None => Ok(None),
    }
}

/// What is to be said of a name that is not found.
fn missing_note(own: &BodyScope, used: &HierarchicalUse) -> Result<Note, NoMemory>
    ensures { IfOk result (λ note. note ≡ missing_note own.now used.now) }
{
    Ok(Note {
        file: own.scope.file.copy()?,
        chunk: own.scope.chunk,
        token: used.token,
        code: Code::N10,
        arg: first_name(&used.name)?,
    })
}

/// Adds what is to be said of a name in the body of the instance at a path.
fn add_missing(
    alloc: Global,
    hierarchy: &Hierarchy,
    path: &Path,
    own: &BodyScope,
    used: &HierarchicalUse,
    notes: &mut Vec<Note>,
) -> Result<(), NoMemory>
    ensures { OnOk result (notes.new.items ≡ notes.old.items ++ missing_in (entry_at hierarchy.now) path.now own.now used.now) }
{
    let from = inside(alloc, path, &used.scope)?;
    if !hierarchy.is_found(alloc, &from, &used.name)? {
        notes.push(missing_note(own, used)?)?;
    }
    Ok(())
}

/// Adds it of all names in that body.
fn add_missing_in(
    alloc: Global,
    hierarchy: &Hierarchy,
    path: &Path,
    own: &BodyScope,
    uses: &[HierarchicalUse],
    notes: &mut Vec<Note>,
) -> Result<(), NoMemory>
    ensures { OnOk result (notes.new.items ≡ notes.old.items ++ flat_map (missing_in (entry_at hierarchy.now) path.now own.now) uses.now) }
{
    'uses: for used in uses {
        add_missing(alloc, hierarchy, path, own, used, notes)?;
    }
    Ok(())
}

/// Adds it of all names in the body of an instance.
fn add_missing_of(
    alloc: Global,
    hierarchy: &Hierarchy,
    instance: &Surveyed,
    notes: &mut Vec<Note>,
) -> Result<(), NoMemory>
    ensures { OnOk result (notes.new.items ≡ notes.old.items ++ missing_of (entry_at hierarchy.now) instance.now) }
{
    let facts = instance.facts();
    let path = &instance.visit().path;
    match facts.scopes.items().split_first() {
        Some((own, _)) => {
            let uses = facts.hierarchical.items();
            add_missing_in(alloc, hierarchy, path, own, uses, notes)
        }
        None => Ok(()),
    }
}

/// What is to be said of the names in the bodies of these instances, which are sought in this hierarchy.
fn missing_among(
    alloc: Global,
    hierarchy: &Hierarchy,
    instances: &[Surveyed],
) -> Result<Vec<Note>, NoMemory>
    ensures { IfOk result (λ notes. notes.items ≡ flat_map (missing_of (entry_at hierarchy.now)) instances.now) }
{
    let mut notes = Vec::new(alloc);
    'instances: for instance in instances {
        add_missing_of(alloc, hierarchy, instance, &mut notes)?;
    }
    Ok(notes)
}

/// What is to be said of the hierarchical names of a design with these instances that are not found among them (N10; IEEE 1800-2017, 23.6
/// and 23.8).
pub(crate) fn all_missing(alloc: Global, instances: &[Surveyed]) -> Result<Vec<Note>, NoMemory>
    ensures { IfOk result (λ notes. notes.items ≡ all_missing instances.now) }
{
    let opened = opened_all(alloc, instances)?;
    let hierarchy = Hierarchy::of(alloc, opened.as_slice())?;
    missing_among(alloc, &hierarchy, instances)
}
