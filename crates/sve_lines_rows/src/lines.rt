//! Rows of the lines of answers about one thing.
//!
//! - `instance OFFSET | TEXT | BODY`: the lines of an instance of the module whose name stands at this offset of the text.
//! - `last OFFSET | TEXT | BODY`: how many lines these are, and the last.
//! - `type OFFSET | TEXT | THING`: the lines of a thing whose name stands at this offset of the text.
//! - `param THING`: the lines of its value.
ghost use Rattle.std.specs.Prelude.{◌≤◌, IfOk, length};

use crate::shown::{Shown, shown_lines};
use std::alloc::Global;
use sve_diag::Place;
use sve_facts_lines::{instance_lines, param_lines, type_lines};
use sve_listed::{Unread, entry, thing};
use sve_row::{decoded, fields_of, name_of, offset_of};

/// The place of this offset in a file of rows.
fn place(alloc: Global, offset: &str) -> Result<Place, Unread> {
    Ok(Place {
        file: name_of(alloc, b"f.sv")?.ok_or(Unread::NoForm)?,
        offset: offset_of(offset).ok_or(Unread::NoForm)?,
    })
}

/// The text that a field spells, where it is no longer than a text may be.
fn text_of(alloc: Global, field: &str) -> Result<Vec<u8>, Unread>
    ensures { IfOk result (λ text. length text.items ≤ 100000) }
{
    let text = decoded(alloc, field)?;
    if text.len() > 100_000 {
        return Err(Unread::NoForm);
    }
    Ok(text)
}

/// The answer to a row `instance` or `last`.
pub fn instance_row(alloc: Global, row: &str, shown: Shown) -> Result<String, Unread> {
    let fields = fields_of(alloc, row)?;
    let [offset, text, body] = fields.as_slice() else {
        return Err(Unread::NoForm);
    };
    let entry = entry(alloc, body)?;
    let at = place(alloc, offset)?;
    let text = text_of(alloc, text)?;
    let lines = instance_lines(alloc, &entry.name, &at, &text, &entry.facts)?;
    Ok(shown_lines(alloc, lines, shown)?)
}

/// The answer to a row `type`.
pub fn type_row(alloc: Global, row: &str) -> Result<String, Unread> {
    let fields = fields_of(alloc, row)?;
    let [offset, text, declared] = fields.as_slice() else {
        return Err(Unread::NoForm);
    };
    let what = thing(alloc, declared)?;
    let at = place(alloc, offset)?;
    let text = text_of(alloc, text)?;
    let lines = type_lines(alloc, &what, &at, &text)?;
    Ok(shown_lines(alloc, lines, Shown::All)?)
}

/// The answer to a row `param`.
pub fn param_row(alloc: Global, row: &str) -> Result<String, Unread> {
    let lines = param_lines(alloc, &thing(alloc, row)?)?;
    Ok(shown_lines(alloc, lines, Shown::All)?)
}
