//! The rows of packages.
use crate::said::{add_name, add_notes, add_scope, add_what};
use std::alloc::Global;
use sve_bytes::{Name, NoMemory};
use sve_facts::Facts;
use sve_given::words_of;
use sve_known::{Known, named};
use sve_row::{fields_of, name_of, spell};
use sve_row_packages::{Chunk, File, SEE, file_of};
use sve_scope::{Enclosing, Scope};
use sve_show::tokens_of;
use sve_table::Table;
use sve_tree::{PackageScope, ScopedName, Word};

/// The rows of packages.
#[derive(Clone, Copy)]
pub struct Packages;

impl sve_row::Table for Packages {
    fn answer(&self, alloc: Global, kind: &str, row: &str) -> Result<Option<String>, NoMemory> {
        match kind {
            "packages" => packages_row(alloc, row),
            _ => Ok(None),
        }
    }
}

/// The answer to a row.
fn packages_row(alloc: Global, row: &str) -> Result<Option<String>, NoMemory> {
    let fields = fields_of(alloc, row)?;
    match name_of(alloc, b"a.sv")? {
        Some(name) => packages_in(alloc, &name, &fields),
        None => Ok(None),
    }
}

/// The answer to the fields of a row, in this file.
fn packages_in(alloc: Global, name: &Name, fields: &[&str]) -> Result<Option<String>, NoMemory> {
    match file_of(alloc, name, fields)? {
        Some(file) => Ok(Some(answers_of(alloc, &file, fields)?)),
        None => Ok(None),
    }
}

/// The answers to the fields of a row, one after another.
fn answers_of(alloc: Global, file: &File, fields: &[&str]) -> Result<String, NoMemory> {
    let mut out = String::new(alloc);
    let mut count = 0;
    for text in fields {
        if !out.is_empty() {
            out.push_str(" | ")?;
        }
        count = add_answer(alloc, &mut out, file, count, text)?;
    }
    Ok(out)
}

/// Adds the answer to a field behind so many chunks, and tells how many there are behind it.
fn add_answer(
    alloc: Global,
    out: &mut String,
    file: &File,
    count: usize,
    text: &str,
) -> Result<usize, NoMemory> {
    if let Some(name) = text.strip_prefix(SEE) {
        if let Some(chunk) = file.chunks.get(count.wrapping_sub(1)) {
            add_meaning(alloc, out, &file.known, &chunk.unit.scope, name)?;
        }
        return Ok(count);
    }
    if let Some(chunk) = file.chunks.get(count) {
        add_chunk(alloc, out, &file.known, chunk)?;
    }
    Ok(count.wrapping_add(1))
}

/// Tells what a chunk has.
fn add_chunk(
    alloc: Global,
    out: &mut String,
    known: &Table<Known>,
    chunk: &Chunk,
) -> Result<(), NoMemory> {
    if chunk.has_items {
        add_scope(alloc, out, b"$unit", &chunk.unit.scope)?;
        add_notes(out, chunk.unit.notes.items())?;
    }
    match &chunk.package {
        Some(name) => add_package(alloc, out, known, chunk.has_items, name),
        None if chunk.has_items => Ok(()),
        None => out.push_str("nothing"),
    }
}

/// Tells what is found of a package.
fn add_package(
    alloc: Global,
    out: &mut String,
    known: &Table<Known>,
    is_behind: bool,
    name: &Name,
) -> Result<(), NoMemory> {
    if is_behind {
        out.push(' ')?;
    }
    match known.get(name) {
        Some(known) => add_facts(alloc, out, name, known.facts()),
        None => spell(out, name.bytes()),
    }
}

/// Adds what is found of a package.
fn add_facts(alloc: Global, out: &mut String, name: &Name, facts: &Facts) -> Result<(), NoMemory> {
    match facts.scopes.items().first() {
        Some(own) => add_scope(alloc, out, name.bytes(), &own.scope)?,
        None => spell(out, name.bytes())?,
    }
    add_notes(out, facts.notes.items())
}

/// A name of one word, or of three: a package, `::`, and the name. It stands behind all of a chunk.
fn scoped_name(count: usize) -> ScopedName {
    if count > 2 {
        return ScopedName {
            scope: Some(PackageScope { name: 0, colons: 1 }),
            name: 2,
        };
    }
    ScopedName {
        scope: None,
        name: 0,
    }
}

/// Tells what the name of these words stands for in a scope.
fn add_named(
    alloc: Global,
    out: &mut String,
    known: &Table<Known>,
    scope: &Scope,
    words: &[Word],
) -> Result<(), NoMemory> {
    let name = scoped_name(words.len());
    let around = Enclosing::new(alloc);
    match named(known, words, scope, &around, name) {
        Ok(what) => add_what(alloc, out, what),
        Err(wrong) => {
            spell(out, wrong.code.spelling())?;
            add_name(out, wrong.name)
        }
    }
}

/// Tells what a name stands for in a scope.
fn add_meaning(
    alloc: Global,
    out: &mut String,
    known: &Table<Known>,
    scope: &Scope,
    text: &str,
) -> Result<(), NoMemory> {
    let list = tokens_of(alloc, text.as_bytes())?;
    let words = words_of(alloc, list.items())?;
    add_named(alloc, out, known, scope, &words)
}
