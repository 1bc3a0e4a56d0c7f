//! Rows of types, which are written as `type_reading` says.
//!
//! - `type WORDS`: bits, states, sign and text of the type.
//! - `equivalent WORDS | WORDS`: whether the types are equivalent; where they are so in one order alone, `in one order`.
//! - `copy WORDS`: the text of a copy of a value that is the type; `copy "BYTES"`: that of a text; `copy V`: that of bits.
use crate::type_reading::type_of;
use std::alloc::Global;
use sve_bytes::{List, NoMemory};
use sve_row::{Table, decoded, field, spell, value_of, yes};
use sve_types::{Ty, Value, equivalent, four_state, print, signed, width};

/// The rows of types.
#[derive(Clone, Copy)]
pub struct Types;

impl Table for Types {
    fn answer(&self, alloc: Global, kind: &str, row: &str) -> Result<Option<String>, NoMemory> {
        match kind {
            "type" => type_row(alloc, row),
            "equivalent" => equivalent_row(alloc, row),
            "copy" => copy_row(alloc, row),
            _ => Ok(None),
        }
    }
}

/// Bits, states, sign and text of a type.
fn type_text(alloc: Global, ty: &Ty) -> Result<String, NoMemory> {
    let bits = width(ty);
    let states = if four_state(ty) { "four" } else { "two" };
    let sign = if signed(ty) { "signed" } else { "unsigned" };
    let mut out = format!(in alloc; "{bits} {states} {sign} ")?;
    spell(&mut out, &print(alloc, ty)?)?;
    Ok(out)
}

/// The text of a value.
fn value_text(alloc: Global, value: &Value) -> Result<String, NoMemory> {
    let mut out = String::new(alloc);
    match value {
        Value::Bits(bits) => spell(&mut out, &sve_value::print(alloc, *bits)?)?,
        Value::Text(text) => spell(&mut out, text.items())?,
        Value::OfType(ty) => spell(&mut out, &print(alloc, ty)?)?,
    }
    Ok(out)
}

/// The answer to a row `type`.
fn type_row(alloc: Global, row: &str) -> Result<Option<String>, NoMemory> {
    match type_of(alloc, row)? {
        Some(ty) => Ok(Some(type_text(alloc, &ty)?)),
        None => Ok(None),
    }
}

/// Whether two types are equivalent.
fn equivalence(a: &Ty, b: &Ty) -> &'static str {
    let are = equivalent(a, b);
    if equivalent(b, a) == are {
        yes(are)
    } else {
        "in one order"
    }
}

/// Whether a type is equivalent to the one that words write, or nothing where they are of no form.
fn equivalence_to(alloc: Global, a: &Ty, words: &str) -> Result<Option<&'static str>, NoMemory> {
    match type_of(alloc, words)? {
        Some(b) => Ok(Some(equivalence(a, &b))),
        None => Ok(None),
    }
}

/// Whether the types that two fields write are equivalent.
fn equivalence_of(alloc: Global, row: &str) -> Result<Option<&'static str>, NoMemory> {
    let (first, second) = field(row);
    match type_of(alloc, first)? {
        Some(a) => equivalence_to(alloc, &a, second),
        None => Ok(None),
    }
}

/// The answer to a row `equivalent`.
fn equivalent_row(alloc: Global, row: &str) -> Result<Option<String>, NoMemory> {
    match equivalence_of(alloc, row)? {
        Some(answer) => Ok(Some(String::from_str(alloc, answer)?)),
        None => Ok(None),
    }
}

/// The value that a field of a row `copy` writes, or nothing where it is of no form.
fn written_value(alloc: Global, row: &str) -> Result<Option<Value>, NoMemory> {
    if let Some(text) = row.strip_prefix("\"") {
        let text = decoded(alloc, text.strip_suffix("\"").unwrap_or(text))?;
        return Ok(Some(Value::Text(List::of(text))));
    }
    if let Some(bits) = value_of(row) {
        return Ok(Some(Value::Bits(bits)));
    }
    match type_of(alloc, row)? {
        Some(ty) => Ok(Some(Value::OfType(ty))),
        None => Ok(None),
    }
}

/// The text of a copy of a value.
fn copy_text(alloc: Global, value: &Value) -> Result<String, NoMemory> {
    let copy = value.copy(alloc)?;
    value_text(alloc, &copy)
}

/// The answer to a row `copy`.
fn copy_row(alloc: Global, row: &str) -> Result<Option<String>, NoMemory> {
    match written_value(alloc, row)? {
        Some(value) => Ok(Some(copy_text(alloc, &value)?)),
        None => Ok(None),
    }
}
