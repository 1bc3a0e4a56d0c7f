//! Rows of macros and their uses (IEEE 1800-2017, 22.5.1). A list is written from behind its `(` up to its `)`.
//!
//! - `actuals LIST`: how many bytes the list has, and its actuals, or `open`.
//! - `use FORMALS | TEXT | LIST`: what a use of the macro with these formals and this text stands for, or `count`; a formal has its
//!   default behind `=`. `below N FORMALS | TEXT | LIST`: the same where that has fewer than N bytes, else `no room`.
//! - `constant TEXT | LIST`: the same of a macro without a list. LIST is empty for a use without actuals.
//! - `part N TEXT`: the part of a list that begins at byte N, its first byte and the byte behind its last, and its separator.
//! - `string TEXT`, `escaped TEXT`: how many bytes a string literal has behind its quote, an escaped identifier behind its
//!   backslash.
//! - `table STEP STEP ..`: what the table finds at each step `?NAME` after the steps `NAME=TEXT`, `-NAME`, and `*`, which clears
//!   it.
use std::alloc::{AllocError, Global};
use std::fmt::Write;
use sve_bytes::{List, Name, NoMemory};
use sve_macro::{
    ActualFault, Definition, Macro, SubstFault, actuals, escaped_len, part_at, string_len,
    substitute_below,
};
use sve_row::{Table, decoded, field, name_of, number_of, spell, word, words_of};

/// The rows of macros and their uses.
#[derive(Clone, Copy)]
pub struct Macros;

impl Table for Macros {
    fn answer(&self, alloc: Global, kind: &str, row: &str) -> Result<Option<String>, NoMemory> {
        match kind {
            "actuals" => actuals_row(alloc, row),
            "use" => use_row(alloc, row, 1_000_000),
            "below" => below_row(alloc, row),
            "constant" => constant_row(alloc, row),
            "part" => part_row(alloc, row),
            "string" => string_row(alloc, row),
            "escaped" => escaped_row(alloc, row),
            "table" => table_row(alloc, row),
            _ => Ok(None),
        }
    }
}

/// The actuals of a list and its length, or nothing where it does not end.
fn texts_of(alloc: Global, list: &[u8]) -> Result<Option<(Vec<List<u8>>, usize)>, NoMemory> {
    let (spans, end) = match actuals(alloc, list, 0) {
        Ok(found) => found,
        Err(ActualFault::Open) => return Ok(None),
        Err(ActualFault::NoMemory) => return Err(AllocError),
    };
    let mut texts = Vec::new(alloc);
    for span in spans.items() {
        let text = list.get(span.from..span.to).unwrap_or(b"");
        texts.push(List::of(text.to_vec(alloc)?))?;
    }
    Ok(Some((texts, end)))
}

/// The answer to a row `actuals`.
fn actuals_row(alloc: Global, row: &str) -> Result<Option<String>, NoMemory> {
    let list = decoded(alloc, row)?;
    let Some((texts, end)) = texts_of(alloc, &list)? else {
        return Ok(Some(String::from_str(alloc, "open")?));
    };
    let mut out = format!(in alloc; "{end} bytes")?;
    for text in &texts {
        out.push_str(" `")?;
        spell(&mut out, text.items())?;
        out.push('`')?;
    }
    Ok(Some(out))
}

/// A formal with its default behind `=`, where it has one.
fn formal_of(alloc: Global, text: &[u8]) -> Result<Option<(Name, Option<List<u8>>)>, NoMemory> {
    let at = text
        .iter()
        .position(|byte| *byte == b'=')
        .unwrap_or(text.len());
    let default = match text.get(at.wrapping_add(1)..) {
        Some(default) if at < text.len() => Some(List::of(default.to_vec(alloc)?)),
        _ => None,
    };
    let Some(name) = name_of(alloc, text.get(..at).unwrap_or(b""))? else {
        return Ok(None);
    };
    Ok(Some((name, default)))
}

/// The macro with these formals and this text.
fn macro_of(alloc: Global, formals: &str, text: &str) -> Result<Option<Macro>, NoMemory> {
    let Some((parts, _)) = texts_of(alloc, &decoded(alloc, formals)?)? else {
        return Ok(None);
    };
    let mut all = Vec::new(alloc);
    for part in &parts {
        if !part.items().is_empty() {
            match formal_of(alloc, part.items())? {
                Some(formal) => all.push(formal)?,
                None => return Ok(None),
            }
        }
    }
    let definition = Definition {
        formals: List::of(all),
        has_list: true,
        text: List::of(decoded(alloc, text)?),
    };
    Ok(Some(Macro::of(alloc, definition)?))
}

/// A macro without a list.
fn constant_of(alloc: Global, text: &str) -> Result<Macro, NoMemory> {
    let definition = Definition {
        formals: List::of(Vec::new(alloc)),
        has_list: false,
        text: List::of(decoded(alloc, text)?),
    };
    Macro::of(alloc, definition)
}

/// What a use with these actuals stands for, in so much room.
fn used(
    alloc: Global,
    definition: &Macro,
    given: &[List<u8>],
    room: usize,
) -> Result<String, NoMemory> {
    match substitute_below(alloc, definition, given, room) {
        Ok(Some(text)) => {
            let mut out = String::from_str(alloc, "`")?;
            spell(&mut out, text.items())?;
            out.push('`')?;
            Ok(out)
        }
        Ok(None) => String::from_str(alloc, "no room"),
        Err(SubstFault::Count) => String::from_str(alloc, "count"),
        Err(SubstFault::NoMemory) => Err(AllocError),
    }
}

/// The answer to a row `use`, in so much room.
fn use_row(alloc: Global, row: &str, room: usize) -> Result<Option<String>, NoMemory> {
    let (formals, rest) = field(row);
    let (text, list) = field(rest);
    let list = decoded(alloc, list)?;
    let Some((given, _)) = texts_of(alloc, &list)? else {
        return Ok(None);
    };
    let Some(definition) = macro_of(alloc, formals, text)? else {
        return Ok(None);
    };
    Ok(Some(used(alloc, &definition, &given, room)?))
}

/// The answer to a row `below`.
fn below_row(alloc: Global, row: &str) -> Result<Option<String>, NoMemory> {
    let (room, rest) = word(row);
    use_row(alloc, rest, number_of(room).unwrap_or(0))
}

/// The answer to a row `constant`.
fn constant_row(alloc: Global, row: &str) -> Result<Option<String>, NoMemory> {
    let (text, list) = field(row);
    let definition = constant_of(alloc, text)?;
    let given = match texts_of(alloc, &decoded(alloc, list)?)? {
        Some((given, _)) => given,
        None => Vec::new(alloc),
    };
    Ok(Some(used(alloc, &definition, &given, 1_000_000)?))
}

/// The answer to a row `part`.
fn part_row(alloc: Global, row: &str) -> Result<Option<String>, NoMemory> {
    let (at, text) = word(row);
    let text = decoded(alloc, text)?;
    let at = number_of(at).unwrap_or(0);
    if at > text.len() {
        return Ok(None);
    }
    match part_at(alloc, &text, at)? {
        Some(part) => {
            let from = part.span.from;
            let to = part.span.to;
            let end = part.end;
            Ok(Some(format!(in alloc; "{from}-{to}, separator at {end}")?))
        }
        None => Ok(Some(String::from_str(alloc, "open")?)),
    }
}

/// The answer to a row `string`.
fn string_row(alloc: Global, row: &str) -> Result<Option<String>, NoMemory> {
    let len = string_len(&decoded(alloc, row)?);
    Ok(Some(format!(in alloc; "{len}")?))
}

/// The answer to a row `escaped`.
fn escaped_row(alloc: Global, row: &str) -> Result<Option<String>, NoMemory> {
    let len = escaped_len(&decoded(alloc, row)?);
    Ok(Some(format!(in alloc; "{len}")?))
}

/// Adds what a table finds under a name.
fn add_found(out: &mut String, table: &sve_macro::Table, name: &Name) -> Result<(), NoMemory> {
    if !out.is_empty() {
        out.push_str(", ")?;
    }
    match table.find(name) {
        Some(found) => spell(out, found.definition().text.items()),
        None => out.push_str("none"),
    }
}

/// Defines a macro without a list.
fn define(
    alloc: Global,
    table: &mut sve_macro::Table,
    name: &str,
    text: &str,
) -> Result<(), NoMemory> {
    let definition = constant_of(alloc, text)?;
    match name_of(alloc, name.as_bytes())? {
        Some(name) => table.define(name, definition),
        None => Ok(()),
    }
}

/// Does one step on a table, and adds what it finds.
fn step(
    alloc: Global,
    table: &mut sve_macro::Table,
    out: &mut String,
    step: &str,
) -> Result<(), NoMemory> {
    if step == "*" {
        table.clear();
        return Ok(());
    }
    if let Some((name, text)) = step.split_once('=') {
        return define(alloc, table, name, text);
    }
    let Some(name) = name_of(alloc, step.as_bytes().get(1..).unwrap_or(b""))? else {
        return Ok(());
    };
    if step.starts_with('-') {
        table.undefine(&name);
        return Ok(());
    }
    add_found(out, table, &name)
}

/// The answer to a row `table`.
fn table_row(alloc: Global, row: &str) -> Result<Option<String>, NoMemory> {
    let mut table = sve_macro::Table::new(alloc);
    let mut out = String::new(alloc);
    for word in &words_of(alloc, row)? {
        step(alloc, &mut table, &mut out, word)?;
    }
    Ok(Some(out))
}
