ghost use Rattle.std.specs.Prelude.{◌≡◌, IfOk};

use crate::Code;
use sve_bytes::{Name, NoMemory};

/// A place in a file.
#[derive(Drop)]
pub struct Place {
    /// The name of the file.
    pub file: Name,
    /// The byte in the file, from 0; the length of the file is its end.
    pub offset: u32,
}

/// A diagnostic.
#[derive(Drop)]
pub struct Diag {
    /// Where it stands.
    pub place: Place,
    /// What it says.
    pub code: Code,
    /// What it says it of, for the codes that name something.
    pub arg: Option<Name>,
}

/// A diagnostic that names its place by a token, so that it stays the same while the text before the token moves.
#[derive(Drop)]
pub struct Note {
    /// The name of the file.
    pub file: Name,
    /// The chunk in the file, from 0.
    pub chunk: u32,
    /// The token in the chunk, from 0.
    pub token: u32,
    /// What it says.
    pub code: Code,
    /// What it says it of, for the codes that name something.
    pub arg: Option<Name>,
}

fn copy_of(name: &Option<Name>) -> Result<Option<Name>, NoMemory>
    ensures { IfOk result (λ n. n ≡ name.now) }
{
    match name {
        Some(name) => Ok(Some(name.copy()?)),
        None => Ok(None),
    }
}

impl Place {
    /// The same place, whose name shares its bytes.
    pub fn copy(&self) -> Result<Place, NoMemory>
        ensures { IfOk result (λ p. p ≡ self.now) }
    {
        Ok(Place {
            file: self.file.copy()?,
            offset: self.offset,
        })
    }
}

impl Diag {
    /// The same diagnostic, whose names share their bytes.
    pub fn copy(&self) -> Result<Diag, NoMemory>
        ensures { IfOk result (λ d. d ≡ self.now) }
    {
        Ok(Diag {
            place: self.place.copy()?,
            code: self.code,
            arg: copy_of(&self.arg)?,
        })
    }
}

impl Note {
    /// The same note, whose names share their bytes.
    pub fn copy(&self) -> Result<Note, NoMemory>
        ensures { IfOk result (λ n. n ≡ self.now) }
    {
        Ok(Note {
            file: self.file.copy()?,
            chunk: self.chunk,
            token: self.token,
            code: self.code,
            arg: copy_of(&self.arg)?,
        })
    }
}
