//! Names, paths and values as rows write them, and things that are declared.
//!
//! A thing that is declared is `KIND`, `KIND TYPE` or `KIND TYPE VALUE`, where a type that is not known is `?`.
use crate::types::type_of;
use std::alloc::{AllocError, AllocFailed, Global};
use sve_bytes::{BadPath, List, Name, NoMemory, Path};
use sve_io::Halt;
use sve_row::{decoded, name_of, value_of, words_of};
use sve_scope::{Constant, Face, FaceName, SharedType, What};
use sve_types::Value;

/// Why a row is not read.
#[derive(Clone, Copy)]
pub enum Unread {
    /// It has no form.
    NoForm,
    /// There was no memory.
    NoMemory,
}

impl From<AllocError> for Unread {
    fn from(_error: AllocError) -> Unread {
        Unread::NoMemory
    }
}

impl<T: Drop> From<AllocFailed<T>> for Unread {
    fn from(_error: AllocFailed<T>) -> Unread {
        Unread::NoMemory
    }
}

impl From<Halt> for Unread {
    fn from(_halt: Halt) -> Unread {
        Unread::NoMemory
    }
}

/// What came of a row, or nothing where it has no form.
pub fn answer_of(read: Result<String, Unread>) -> Result<Option<String>, NoMemory> {
    match read {
        Ok(answer) => Ok(Some(answer)),
        Err(Unread::NoForm) => Ok(None),
        Err(Unread::NoMemory) => Err(AllocError),
    }
}

/// The name that a word spells.
pub fn name(alloc: Global, word: &str) -> Result<Name, Unread> {
    let bytes = decoded(alloc, word)?;
    name_of(alloc, &bytes)?.ok_or(Unread::NoForm)
}

/// The path that a word spells.
pub fn path(alloc: Global, word: &str) -> Result<Path, Unread> {
    match Path::read(alloc, &decoded(alloc, word)?) {
        Ok(path) => Ok(path),
        Err(BadPath::NoMemory) => Err(Unread::NoMemory),
        Err(BadPath::At(_)) => Err(Unread::NoForm),
    }
}

/// The value that a word writes.
pub fn value(alloc: Global, word: &str) -> Result<Value, Unread> {
    if let Some(text) = word.strip_prefix("\"") {
        let text = text.strip_suffix("\"").ok_or(Unread::NoForm)?;
        return Ok(Value::Text(List::of(decoded(alloc, text)?)));
    }
    match value_of(word) {
        Some(bits) => Ok(Value::Bits(bits)),
        None => Err(Unread::NoForm),
    }
}

/// The type that a word writes, where it is known.
fn known_type(alloc: Global, word: &str) -> Result<Option<SharedType>, Unread> {
    if word == "?" {
        return Ok(None);
    }
    match type_of(alloc, word)? {
        Some(ty) => Ok(Some(ty)),
        None => Err(Unread::NoForm),
    }
}

/// A constant, of which a word that is not there says nothing.
fn constant(alloc: Global, ty: &str, written: Option<&str>) -> Result<Constant, Unread> {
    Ok(Constant {
        ty: known_type(alloc, ty)?,
        value: match written {
            Some(written) => Some(value(alloc, written)?),
            None => None,
        },
    })
}

/// A thing that has neither a type nor a value.
fn plain_thing(alloc: Global, kind: &str) -> Result<What, Unread> {
    match kind {
        "genvar" => Ok(What::Genvar),
        "instance" => Ok(What::Instance),
        "block" => Ok(What::Block),
        "modport" => Ok(What::Modport),
        "interfaceport" => Ok(What::InterfacePort(Face {
            name: FaceName {
                interface: name(alloc, "i")?,
                modport: None,
            },
            names: None,
        })),
        _ => Err(Unread::NoForm),
    }
}

/// A thing of a type.
fn typed_thing(alloc: Global, kind: &str, ty: &str) -> Result<What, Unread> {
    let ty = known_type(alloc, ty)?;
    if kind == "function" {
        return Ok(What::Function(ty));
    }
    let ty = ty.ok_or(Unread::NoForm)?;
    match kind {
        "net" => Ok(What::Net(ty)),
        "variable" => Ok(What::Variable(ty)),
        "type" => Ok(What::TypeName(ty)),
        _ => Err(Unread::NoForm),
    }
}

/// The thing that a field writes.
pub fn thing(alloc: Global, field: &str) -> Result<What, Unread> {
    let words = words_of(alloc, field)?;
    let Some((kind, rest)) = words.as_slice().split_first() else {
        return Err(Unread::NoForm);
    };
    let Some((ty, rest)) = rest.split_first() else {
        return plain_thing(alloc, kind);
    };
    let written = rest.first().copied();
    match *kind {
        "parameter" => Ok(What::Parameter(constant(alloc, ty, written)?)),
        "localparam" => Ok(What::LocalParameter(constant(alloc, ty, written)?)),
        "enumname" => Ok(What::EnumName(constant(alloc, ty, written)?)),
        _ => typed_thing(alloc, kind, ty),
    }
}
