//! The names of a row, by their texts.
use crate::entry::Entry;
use crate::types::{plain, type_of_text, vector};
use std::alloc::Global;
use sve_bytes::{List, NoMemory};
use sve_row::{name_of, value_of};
use sve_show::cut;
use sve_token::Token;
use sve_tree::Word;
use sve_types::{Base, Ty, Value, Vec_};

/// The names of a row, with commas between them.
pub fn entries(alloc: Global, text: &str) -> Result<Vec<Entry>, NoMemory> {
    let mut names = Vec::new(alloc);
    for one in text.split(',') {
        if let Some(entry) = entry(alloc, one.trim(), names.as_slice())? {
            names.push(entry)?;
        }
    }
    Ok(names)
}

/// A name and what it stands for, in terms of the names before it.
fn entry(alloc: Global, text: &str, names: &[Entry]) -> Result<Option<Entry>, NoMemory> {
    match text.split_once('=') {
        Some((name, value)) => constant(alloc, name, value, names),
        None => {
            let (name, ty) = cut(text, ':');
            named(alloc, name, type_of_text(alloc, ty, names)?, None, true)
        }
    }
}

/// A constant by its name, behind which its type may stand, and its value.
fn constant(
    alloc: Global,
    name: &str,
    value: &str,
    names: &[Entry],
) -> Result<Option<Entry>, NoMemory> {
    let value = value_of_text(alloc, value)?;
    match name.split_once('@') {
        Some((name, ty)) => named(alloc, name, type_of_text(alloc, ty, names)?, value, false),
        None => {
            let ty = type_of_value(alloc, &value)?;
            named(alloc, name, ty, value, false)
        }
    }
}

/// An entry of this name, where it is one.
fn named(
    alloc: Global,
    name: &str,
    ty: Ty,
    value: Option<Value>,
    is_type: bool,
) -> Result<Option<Entry>, NoMemory> {
    match name_of(alloc, name.as_bytes())? {
        None => Ok(None),
        Some(name) => Ok(Some(Entry {
            name,
            ty,
            is_type,
            value,
        })),
    }
}

/// The value that a text says: a string in quotes, or bits as they are printed.
fn value_of_text(alloc: Global, text: &str) -> Result<Option<Value>, NoMemory> {
    if let Some(rest) = text.strip_prefix('"') {
        let bytes = Vec::from_slice(alloc, rest.trim_end_matches('"').as_bytes())?;
        return Ok(Some(Value::Text(List::of(bytes))));
    }
    match value_of(text) {
        Some(bits) => Ok(Some(Value::Bits(bits))),
        None => Ok(None),
    }
}

/// The type that a value gives a constant for which none is written (IEEE 1800-2017, 6.20.2).
fn type_of_value(alloc: Global, value: &Option<Value>) -> Result<Ty, NoMemory> {
    match value {
        Some(Value::Bits(bits)) => {
            vector(alloc, bits.width() as i32, Vec_::Logic, bits.is_signed())
        }
        Some(Value::Text(_)) => Ok(plain(alloc, Base::Text)),
        _ => Ok(plain(alloc, Base::Vector(Vec_::Logic, false))),
    }
}

/// The words of tokens.
pub fn words_of(alloc: Global, tokens: &[Token]) -> Result<Vec<Word>, NoMemory> {
    let mut words = Vec::new(alloc);
    for token in tokens {
        words.push(Word::of(alloc, token)?)?;
    }
    Ok(words)
}
