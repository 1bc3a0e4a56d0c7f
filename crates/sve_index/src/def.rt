ghost use Rattle.std.specs.Prelude.{◌≡◌, ◌++◌, IfOk, OnOk};
ghost use Rattle.sve_table.specs.Tables.{with_item, with_items};
ghost use Rattle.sve_index.specs.Defs.{def_name, def_of, defs_at, is_new, new_at, note, repeated, repeated_at};

use crate::source::{FileElement, name_at};
use sve_bytes::{Name, NoMemory};
use sve_diag::{Code, Note};
use sve_table::{Named, Table};

/// Where a module, an interface or a package of a name stands.
pub struct Def {
    /// Its name.
    pub name: Name,
    /// The name of its file.
    pub file: Name,
    /// The number of its chunk in the file, from 0.
    pub chunk: u32,
}

impl Drop for Def {
    fn drop(self) {
        let Def {
            name: _,
            file: _,
            chunk: _,
        } = self;
    }
}

impl Def {
    /// The same, whose names share their bytes.
    pub fn copy(&self) -> Result<Def, NoMemory>
        ensures { IfOk result (λ d. d ≡ self.now) }
    {
        Ok(Def {
            name: self.name.copy()?,
            file: self.file.copy()?,
            chunk: self.chunk,
        })
    }
}

impl Named for Def {
    ghost called = { λ d. d.name };

    fn name(&self) -> &Name {
        &self.name
    }
}

/// A note in the chunk of an element.
pub(crate) fn note(
    source: &FileElement,
    token: u32,
    code: Code,
    arg: &Name,
) -> Result<Note, NoMemory>
    ensures { IfOk result (λ n. n ≡ note source.now token code arg.now) }
{
    Ok(Note {
        file: source.file.copy()?,
        chunk: source.chunk,
        token,
        code,
        arg: Some(arg.copy()?),
    })
}

/// Adds what an element defines by a name, where there is none of that name yet, and else the note that there is one. It answers
/// whether it was added.
fn add_def(
    defs: &mut Table<Def>,
    source: &FileElement,
    token: u32,
    name: &Name,
    notes: &mut Vec<Note>,
) -> Result<bool, NoMemory>
    ensures defs { OnOk result (defs.new ≡ with_item def_name defs.old (def_of source.now name.now)) }
    ensures notes { OnOk result (notes.new.items ≡ notes.old.items ++ repeated defs.old source.now token name.now) }
    ensures is_new { IfOk result (λ new. new ≡ is_new defs.old name.now) }
{
    let new = defs.add(Def {
        name: name.copy()?,
        file: source.file.copy()?,
        chunk: source.chunk,
    })?;
    if new {
        return Ok(true);
    }
    notes.push(note(source, token, Code::N03, name)?)?;
    Ok(false)
}

/// The same for the name at a token, if there is one.
pub(crate) fn add_def_at(
    defs: &mut Table<Def>,
    source: &FileElement,
    token: Option<u32>,
    notes: &mut Vec<Note>,
) -> Result<bool, NoMemory>
    ensures defs { OnOk result (defs.new ≡ with_items def_name defs.old (defs_at source.now token)) }
    ensures notes { OnOk result (notes.new.items ≡ notes.old.items ++ repeated_at defs.old source.now token) }
    ensures is_new { IfOk result (λ new. new ≡ new_at defs.old source.now token) }
{
    let Some(token) = token else {
        return Ok(false);
    };
    match name_at(source.element().words.as_slice(), token) {
        Some(name) => add_def(defs, source, token, name, notes),
        None => Ok(false),
    }
}
