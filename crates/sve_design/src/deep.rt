//! Instances that would stand too deep.
ghost use Rattle.std.specs.Prelude.{◌≡◌, IfOk, map};
ghost use Rattle.sve_design.specs.Places.{deep_note, deep_notes, last_name};

use crate::visits::Visit;
use crate::walking::MAX_DEPTH;
use std::alloc::Global;
use sve_bytes::{Name, NoMemory, Path};
use sve_diag::{Code, Note};
use sve_facts::{BodyScope, Child, Facts};

/// The name of the last step of a path.
fn last_name(path: &Path) -> Result<Option<Name>, NoMemory>
    ensures { IfOk result (λ name. name ≡ last_name path.now.steps) }
{
    match path.steps.items().last() {
        Some(step) => Ok(Some(step.name.copy()?)),
        None => Ok(None),
    }
}

/// What is to be said of an instance that would stand too deep, in the text of its parent.
fn deep_note(own: &BodyScope, child: &Child) -> Result<Note, NoMemory>
    ensures { IfOk result (λ note. note ≡ deep_note own.now child.now) }
{
    Ok(Note {
        file: own.scope.file.copy()?,
        chunk: own.scope.chunk,
        token: child.token,
        code: Code::E16,
        arg: last_name(&child.path)?,
    })
}

/// What is to be said of each of these instances.
fn notes_of(alloc: Global, own: &BodyScope, children: &[Child]) -> Result<Vec<Note>, NoMemory>
    ensures { IfOk result (λ notes. notes.items ≡ map (deep_note own.now) children.now) }
{
    let mut notes = Vec::new(alloc);
    'children: for child in children {
        notes.push(deep_note(own, child)?)?;
    }
    Ok(notes)
}

/// What is to be said of the instances in the body of an instance that stands at the greatest depth: they would stand too deep
/// (E16), so they are neither visited nor counted (own). In the body of any other nothing is to be said.
///
/// # Errors
/// For want of memory alone.
pub fn deep_notes(alloc: Global, visit: &Visit, facts: &Facts) -> Result<Vec<Note>, NoMemory>
    ensures { IfOk result (λ notes. notes.items ≡ deep_notes visit.now facts.now) }
{
    if visit.depth != MAX_DEPTH {
        return Ok(Vec::new(alloc));
    }
    match facts.scopes.items().split_first() {
        Some((own, _)) => notes_of(alloc, own, facts.children.items()),
        None => Ok(Vec::new(alloc)),
    }
}
