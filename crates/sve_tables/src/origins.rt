//! Rows of texts that know where their bytes come from.
//!
//! - `pieces BYTES FILE OFFSET copied | BYTES FILE OFFSET written | ..`: the text that the pieces make, and its segments, each
//!   with the byte that it begins at.
use std::alloc::Global;
use sve_bytes::{List, NetType, NoMemory};
use sve_origin::{Expanded, Output, Segment};
use sve_row::{add_number, decoded, fields_of, name_of, net_type_name, offset_of, spell, word};

/// Adds the piece that a field writes, and says whether there is one.
fn is_added(alloc: Global, output: &mut Output, field: &str) -> Result<bool, NoMemory> {
    let (bytes, rest) = word(field);
    let (file, rest) = word(rest);
    let (offset, how) = word(rest);
    let bytes = decoded(alloc, bytes)?;
    let Some(offset) = offset_of(offset) else {
        return Ok(false);
    };
    let Some(file) = name_of(alloc, file.as_bytes())? else {
        return Ok(false);
    };
    let total = output.len();
    if bytes.is_empty() || bytes.len() > 1_000 || total > 1_000_000 || offset > 1_000_000 {
        return Ok(false);
    }
    output.push(&bytes, &file, offset, how == "copied")?;
    Ok(true)
}

/// Adds a segment, with the byte that it begins at.
fn add_segment(out: &mut String, segment: &Segment) -> Result<(), NoMemory> {
    out.push_str(", ")?;
    add_number(out, segment.from as usize)?;
    out.push(' ')?;
    spell(out, segment.place.file.bytes())?;
    out.push(' ')?;
    add_number(out, segment.place.offset as usize)?;
    out.push_str(if segment.copied {
        " copied"
    } else {
        " written"
    })
}

/// Adds a net type, and the byte from which it holds.
fn add_net_type(out: &mut String, from: u32, net_type: NetType) -> Result<(), NoMemory> {
    out.push_str(", ")?;
    out.push_str(net_type_name(net_type))?;
    out.push_str(" from ")?;
    add_number(out, from as usize)
}

/// Adds how many diagnostics there are, and the net types.
fn add_others(out: &mut String, expanded: &Expanded) -> Result<(), NoMemory> {
    out.push_str(", ")?;
    add_number(out, expanded.diags().len())?;
    out.push_str(" diagnostics")?;
    for (from, net_type) in expanded.net_types() {
        add_net_type(out, *from, *net_type)?;
    }
    Ok(())
}

/// The text, its segments, and how many diagnostics and which net types it has.
fn pieces_text(alloc: Global, expanded: &Expanded) -> Result<String, NoMemory> {
    let mut out = String::new(alloc);
    spell(&mut out, expanded.bytes())?;
    for segment in expanded.segments() {
        add_segment(&mut out, segment)?;
    }
    add_others(&mut out, expanded)?;
    Ok(out)
}

/// The answer to a row `pieces`.
pub fn pieces_row(alloc: Global, row: &str) -> Result<Option<String>, NoMemory> {
    let mut output = Output::new(alloc);
    for field in &fields_of(alloc, row)? {
        if !is_added(alloc, &mut output, field)? {
            return Ok(None);
        }
    }
    let mut net_types = Vec::new(alloc);
    net_types.push((2, NetType::None))?;
    let expanded = Expanded::of(output, List::of(Vec::new(alloc)), List::of(net_types));
    Ok(Some(pieces_text(alloc, &expanded)?))
}
