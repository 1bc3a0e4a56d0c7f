//! The types of a row, by their texts.
use crate::entry::Entry;
use std::alloc::Global;
use std::sync::Arc;
use sve_bytes::{List, Name, NoMemory};
use sve_row::name_of;
use sve_show::cut;
use sve_types::{Atom, Base, Range, Ty, Vec_};

/// How many dimensions a text has at most.
const MOST: u32 = 16;

/// A type without dimensions.
pub(crate) fn plain(alloc: Global, base: Base) -> Ty {
    Ty {
        base,
        packed: List::of(Vec::new(alloc)),
        unpacked: List::of(Vec::new(alloc)),
    }
}

/// A type of so many bits.
pub(crate) fn vector(alloc: Global, width: i32, kind: Vec_, signed: bool) -> Result<Ty, NoMemory> {
    let mut packed = Vec::new(alloc);
    packed.push(Range {
        left: width.saturating_sub(1),
        right: 0,
    })?;
    Ok(Ty {
        base: Base::Vector(kind, signed),
        packed: List::of(packed),
        unpacked: List::of(Vec::new(alloc)),
    })
}

/// A type with packed dimensions before its own.
fn behind(packed: Vec<Range>, ty: Ty) -> Result<Ty, NoMemory> {
    let Ty {
        base,
        packed: own,
        unpacked,
    } = ty;
    let mut packed = packed;
    packed.extend_from_slice(own.items())?;
    Ok(Ty {
        base,
        packed: List::of(packed),
        unpacked,
    })
}

/// The dimensions that a type begins with, and the rest.
fn dimensions<'t>(alloc: Global, text: &'t str) -> Result<(Vec<Range>, &'t str), NoMemory> {
    let mut packed = Vec::new(alloc);
    let mut rest = text;
    for _ in 0..MOST {
        let Some(more) = rest.strip_prefix('[') else {
            return Ok((packed, rest));
        };
        let (one, behind) = cut(more, ']');
        let (left, right) = cut(one, ':');
        packed.push(Range {
            left: left.parse::<i32>().unwrap_or(0),
            right: right.parse::<i32>().unwrap_or(0),
        })?;
        rest = behind;
    }
    Ok((packed, rest))
}

/// The type that a word says, in terms of the names before it.
fn type_of_word(alloc: Global, text: &str, names: &[Entry]) -> Result<Ty, NoMemory> {
    let (word, states) = cut(text, '!');
    if let Some(atom) = atom(word) {
        return Ok(plain(alloc, Base::Atom(atom, true)));
    }
    if let Some(ty) = named(word, names) {
        return ty.copy(alloc);
    }
    let kind = if states == "2" {
        Vec_::Bit
    } else {
        Vec_::Logic
    };
    let signed = word.ends_with('s');
    match word.trim_end_matches('s').parse::<i32>() {
        Ok(width) => vector(alloc, width, kind, signed),
        Err(_) => Ok(plain(alloc, Base::Vector(kind, signed))),
    }
}

/// The type of a keyword, where a word is one.
fn atom(word: &str) -> Option<Atom> {
    match word {
        "byte" => Some(Atom::Byte),
        "int" => Some(Atom::Int),
        "integer" => Some(Atom::Integer),
        _ => None,
    }
}

/// The type of the first of the names before it that a word is.
fn named<'a>(word: &str, names: &'a [Entry]) -> Option<&'a Ty> {
    for entry in names {
        if entry.name.bytes() == word.as_bytes() {
            return Some(&entry.ty);
        }
    }
    None
}

/// A packed structure of members, each a name and a type that is a word behind dimensions.
fn structure(alloc: Global, text: &str, names: &[Entry]) -> Result<Ty, NoMemory> {
    let mut members: Vec<(Name, Ty)> = Vec::new(alloc);
    for one in text.split('|') {
        let (name, ty) = cut(one, ' ');
        let (packed, word) = dimensions(alloc, ty)?;
        let ty = behind(packed, type_of_word(alloc, word, names)?)?;
        if let Some(name) = name_of(alloc, name.as_bytes())? {
            members.push((name, ty))?;
        }
    }
    Ok(plain(
        alloc,
        Base::Struct {
            signed: false,
            members: Arc::new(alloc, members)?,
        },
    ))
}

/// A type that a text says, in terms of the names before it.
pub(crate) fn type_of_text(alloc: Global, text: &str, names: &[Entry]) -> Result<Ty, NoMemory> {
    let (packed, rest) = dimensions(alloc, text)?;
    match rest.strip_prefix('{') {
        Some(members) => behind(
            packed,
            structure(alloc, members.trim_end_matches('}'), names)?,
        ),
        None => behind(packed, type_of_word(alloc, rest, names)?),
    }
}
