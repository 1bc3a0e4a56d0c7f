//! Types as rows write them: a keyword, `+` where it is signed and `-` where it is not, packed dimensions as `[7:0]`, and behind `@`
//! unpacked ones, as in `logic+[7:0]@[0:3]`.
use std::alloc::Global;
use sve_bytes::{List, NoMemory};
use sve_row::beside;
use sve_scope::SharedType;
use sve_types::{Atom, Base, Range, Ty, Vec_};

/// The integer types with a width of their own, as keywords name them.
const ATOMS: &[(&str, Atom)] = &[
    ("byte", Atom::Byte),
    ("shortint", Atom::ShortInt),
    ("int", Atom::Int),
    ("longint", Atom::LongInt),
    ("integer", Atom::Integer),
    ("time", Atom::Time),
];

/// The integer types of one bit, as keywords name them.
const VECTORS: &[(&str, Vec_)] = &[
    ("bit", Vec_::Bit),
    ("logic", Vec_::Logic),
    ("reg", Vec_::Reg),
];

/// Whether a mark behind a keyword says signed or unsigned, and the keyword; without a mark the sign is the keyword's own.
fn marked(word: &str) -> (&str, Option<bool>) {
    if let Some(keyword) = word.strip_suffix("+") {
        return (keyword, Some(true));
    }
    match word.strip_suffix("-") {
        Some(keyword) => (keyword, Some(false)),
        None => (word, None),
    }
}

/// What stands before the dimensions.
fn base_of(word: &str) -> Option<Base> {
    let (keyword, sign) = marked(word);
    if let Some(atom) = beside(ATOMS, keyword) {
        return Some(Base::Atom(atom, sign.unwrap_or(atom != Atom::Time)));
    }
    if let Some(vector) = beside(VECTORS, keyword) {
        return Some(Base::Vector(vector, sign.unwrap_or(false)));
    }
    if keyword == "string" {
        return Some(Base::Text);
    }
    None
}

/// The dimension between these bounds.
fn range_of(bounds: &str) -> Option<Range> {
    let (left, right) = bounds.strip_suffix("]")?.split_once(":")?;
    Some(Range {
        left: left.parse::<i32>().ok()?,
        right: right.parse::<i32>().ok()?,
    })
}

/// The dimensions behind the first `[`, or nothing where they are of no form.
fn ranges_of(alloc: Global, text: &str) -> Result<Option<Vec<Range>>, NoMemory> {
    let mut ranges = Vec::new(alloc);
    if text.is_empty() {
        return Ok(Some(ranges));
    }
    for bounds in text.split("[") {
        match range_of(bounds) {
            Some(range) => ranges.push(range)?,
            None => return Ok(None),
        }
    }
    Ok(Some(ranges))
}

/// The type that a word writes, or nothing where it is of no form.
pub fn type_of(alloc: Global, word: &str) -> Result<Option<SharedType>, NoMemory> {
    let (packed, unpacked) = word.split_once("@[").unwrap_or((word, ""));
    let (keyword, packed) = packed.split_once("[").unwrap_or((packed, ""));
    let Some(base) = base_of(keyword) else {
        return Ok(None);
    };
    let Some(packed) = ranges_of(alloc, packed)? else {
        return Ok(None);
    };
    let Some(unpacked) = ranges_of(alloc, unpacked)? else {
        return Ok(None);
    };
    let ty = Ty {
        base,
        packed: List::of(packed),
        unpacked: List::of(unpacked),
    };
    Ok(Some(SharedType::of(alloc, ty)?))
}
