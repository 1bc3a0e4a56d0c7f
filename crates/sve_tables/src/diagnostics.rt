//! Rows of diagnostics.
//!
//! - `diag FILE OFFSET CODE ARG | TEXT`: the line of the diagnostic over the file's text; `-` stands for no argument.
//! - `sorted FILE OFFSET CODE ARG | FILE OFFSET CODE ARG | ..`: the diagnostics in their order.
use std::alloc::Global;
use sve_bytes::NoMemory;
use sve_diag::{Code, Diag, Place, print};
use sve_row::{add_number, decoded, field, fields_of, name_of, offset_of, spell, word};

/// The codes that rows name.
const CODES: &[Code] = &[
    Code::P01,
    Code::P08,
    Code::P11,
    Code::S02,
    Code::S04,
    Code::N01,
    Code::N11,
    Code::C01,
    Code::C02,
    Code::C10,
    Code::E01,
    Code::E16,
];

/// The code of this spelling.
fn code_of(spelling: &[u8]) -> Option<Code> {
    for code in CODES {
        if code.spelling() == spelling {
            return Some(*code);
        }
    }
    None
}

/// The diagnostic that a field writes, or nothing where it is of no form.
fn diag_of(alloc: Global, field: &str) -> Result<Option<Diag>, NoMemory> {
    let (file, rest) = word(field);
    let (offset, rest) = word(rest);
    let (code, arg) = word(rest);
    let (Some(offset), Some(code)) = (offset_of(offset), code_of(code.as_bytes())) else {
        return Ok(None);
    };
    let arg = if arg == "-" {
        None
    } else {
        name_of(alloc, &decoded(alloc, arg)?)?
    };
    let Some(file) = name_of(alloc, &decoded(alloc, file)?)? else {
        return Ok(None);
    };
    Ok(Some(Diag {
        place: Place { file, offset },
        code,
        arg,
    }))
}

/// The line of a diagnostic over the text of its file.
fn line_text(alloc: Global, diag: &Diag, text: &[u8]) -> Result<Option<String>, NoMemory> {
    if diag.place.offset as usize > text.len() || text.len() > 1_000_000 {
        return Ok(None);
    }
    let mut out = String::new(alloc);
    spell(&mut out, &print(alloc, diag, text)?)?;
    if diag.copy()? != *diag {
        out.push_str(" otherwise")?;
    }
    Ok(Some(out))
}

/// The answer to a row `diag`.
pub fn diag_row(alloc: Global, row: &str) -> Result<Option<String>, NoMemory> {
    let (diag, text) = field(row);
    let text = decoded(alloc, text)?;
    match diag_of(alloc, diag)? {
        Some(diag) => line_text(alloc, &diag, &text),
        None => Ok(None),
    }
}

/// Adds a diagnostic as rows write it.
fn add_diag(out: &mut String, diag: &Diag) -> Result<(), NoMemory> {
    spell(out, diag.place.file.bytes())?;
    out.push(' ')?;
    add_number(out, diag.place.offset as usize)?;
    out.push(' ')?;
    spell(out, diag.code.spelling())?;
    out.push(' ')?;
    match &diag.arg {
        Some(arg) => spell(out, arg.bytes()),
        None => out.push('-'),
    }
}

/// Diagnostics as rows write them.
fn sorted_text(alloc: Global, diags: &[Diag]) -> Result<String, NoMemory> {
    let mut out = String::new(alloc);
    for diag in diags {
        if !out.is_empty() {
            out.push_str(" | ")?;
        }
        add_diag(&mut out, diag)?;
    }
    Ok(out)
}

/// The answer to a row `sorted`.
pub fn sorted_row(alloc: Global, row: &str) -> Result<Option<String>, NoMemory> {
    let mut diags = Vec::new(alloc);
    for field in &fields_of(alloc, row)? {
        match diag_of(alloc, field)? {
            Some(diag) => diags.push(diag)?,
            None => return Ok(None),
        }
    }
    diags.sort()?;
    Ok(Some(sorted_text(alloc, &diags)?))
}
