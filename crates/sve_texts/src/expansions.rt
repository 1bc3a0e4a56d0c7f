//! Rows of expansions of `m.sv` (IEEE 1800-2017, clause 22).
//!
//! - `expand TEXT` and `expand TEXT | TEXT OF a.svh`: the expanded text, and its diagnostics.
//! - `size TEXT`: the same with the number of bytes in place of the text.
//! - `origins TEXT | TEXT OF a.svh`: the segments of the expanded text.
//! - `asked TEXT | TEXT OF a.svh`: its net types with the bytes from which they hold, and the names that were asked for.
use crate::library::{Library, library_of};
use std::alloc::{AllocError, Global};
use sve_bytes::{Name, NetType, NoMemory};
use sve_diag::{Diag, print};
use sve_origin::Segment;
use sve_prep::{Expanded, Halt, prep};
use sve_row::{add_number, name_of, net_type_name, spell};

/// The expansion of `m.sv`, with the files that it was made from.
fn expanded(alloc: Global, row: &str) -> Result<Option<(Library, Expanded)>, NoMemory> {
    let mut library = library_of(alloc, row)?;
    let Some(root) = name_of(alloc, b"m.sv")? else {
        return Ok(None);
    };
    match prep(alloc, &mut library, &root) {
        Ok(expanded) => Ok(Some((library, expanded))),
        Err(Halt::NoMemory) => Err(AllocError),
        Err(Halt::Stopped(_)) => Ok(None),
    }
}

/// Adds the line of a diagnostic, where it is in this file.
fn add_line(
    alloc: Global,
    out: &mut String,
    diag: &Diag,
    name: &Name,
    text: &[u8],
) -> Result<(), NoMemory> {
    let is_in = diag.place.offset as usize <= text.len() && text.len() < 5_000_000;
    if !is_in || name.bytes() != diag.place.file.bytes() {
        return Ok(());
    }
    out.push_str(", ")?;
    spell(out, print(alloc, diag, text)?.as_slice())
}

/// Adds the lines of a diagnostic.
fn add_diagnostic(
    alloc: Global,
    out: &mut String,
    library: &Library,
    diag: &Diag,
) -> Result<(), NoMemory> {
    for (name, text) in &library.files {
        add_line(alloc, out, diag, name, text.items())?;
    }
    Ok(())
}

/// Adds the lines of the diagnostics.
fn add_diagnostics(
    alloc: Global,
    out: &mut String,
    library: &Library,
    expanded: &Expanded,
) -> Result<(), NoMemory> {
    for diag in expanded.diags() {
        add_diagnostic(alloc, out, library, diag)?;
    }
    Ok(())
}

/// The expanded text, and its diagnostics.
fn expand_text(alloc: Global, library: &Library, expanded: &Expanded) -> Result<String, NoMemory> {
    let mut out = String::from_str(alloc, "`")?;
    spell(&mut out, expanded.bytes())?;
    out.push('`')?;
    add_diagnostics(alloc, &mut out, library, expanded)?;
    Ok(out)
}

/// The answer to a row `expand`.
pub fn expand_row(alloc: Global, row: &str) -> Result<Option<String>, NoMemory> {
    match expanded(alloc, row)? {
        Some((library, expanded)) => Ok(Some(expand_text(alloc, &library, &expanded)?)),
        None => Ok(None),
    }
}

/// The number of bytes, and the diagnostics.
fn size_text(alloc: Global, library: &Library, expanded: &Expanded) -> Result<String, NoMemory> {
    let mut out = String::new(alloc);
    add_number(&mut out, expanded.bytes().len())?;
    out.push_str(" bytes")?;
    add_diagnostics(alloc, &mut out, library, expanded)?;
    Ok(out)
}

/// The answer to a row `size`.
pub fn size_row(alloc: Global, row: &str) -> Result<Option<String>, NoMemory> {
    match expanded(alloc, row)? {
        Some((library, expanded)) => Ok(Some(size_text(alloc, &library, &expanded)?)),
        None => Ok(None),
    }
}

/// Adds a segment, with the byte that it begins at.
fn add_segment(out: &mut String, segment: &Segment) -> Result<(), NoMemory> {
    out.push_str(", ")?;
    add_number(out, segment.from as usize)?;
    out.push(' ')?;
    spell(out, segment.place.file.bytes())?;
    out.push(' ')?;
    add_number(out, segment.place.offset as usize)?;
    out.push_str(if segment.copied {
        " copied"
    } else {
        " written"
    })
}

/// The expanded text, and its segments.
fn origins_text(alloc: Global, expanded: &Expanded) -> Result<String, NoMemory> {
    let mut out = String::new(alloc);
    spell(&mut out, expanded.bytes())?;
    for segment in expanded.segments() {
        add_segment(&mut out, segment)?;
    }
    Ok(out)
}

/// The answer to a row `origins`.
pub fn origins_row(alloc: Global, row: &str) -> Result<Option<String>, NoMemory> {
    match expanded(alloc, row)? {
        Some((_, expanded)) => Ok(Some(origins_text(alloc, &expanded)?)),
        None => Ok(None),
    }
}

/// Adds a net type, and the byte from which it holds.
fn add_net_type(out: &mut String, from: u32, net_type: NetType) -> Result<(), NoMemory> {
    out.push_str(", ")?;
    out.push_str(net_type_name(net_type))?;
    out.push_str(" from ")?;
    add_number(out, from as usize)
}

/// Adds the names that were asked for.
fn add_asked(out: &mut String, library: &Library) -> Result<(), NoMemory> {
    out.push_str(", asked for")?;
    for name in &library.asked {
        out.push(' ')?;
        spell(out, name.bytes())?;
    }
    Ok(())
}

/// The expanded text, its net types, and the names that were asked for.
fn asked_text(alloc: Global, library: &Library, expanded: &Expanded) -> Result<String, NoMemory> {
    let mut out = String::new(alloc);
    spell(&mut out, expanded.bytes())?;
    for (from, net_type) in expanded.net_types() {
        add_net_type(&mut out, *from, *net_type)?;
    }
    add_asked(&mut out, library)?;
    Ok(out)
}

/// The answer to a row `asked`.
pub fn asked_row(alloc: Global, row: &str) -> Result<Option<String>, NoMemory> {
    match expanded(alloc, row)? {
        Some((library, expanded)) => Ok(Some(asked_text(alloc, &library, &expanded)?)),
        None => Ok(None),
    }
}
