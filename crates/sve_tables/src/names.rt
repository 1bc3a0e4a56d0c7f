//! Rows of names, names of files, paths, and places in a text.
//!
//! - `name BYTES`: how many bytes the name has, or why it is none.
//! - `order BYTES | BYTES`: whether the first name is `less`, `equal` or `greater`.
//! - `file BYTES`: whether a file may have this name.
//! - `path BYTES`: the path as it is printed, or `at N`, the length of its longest prefix that begins a path. Where what is
//!   printed is not read back as the same path, the answer ends with ` otherwise`.
//! - `line N BYTES`: line and column of byte N.
use std::alloc::{AllocError, Global};
use std::cmp::Ordering;
use sve_bytes::{BadName, BadPath, Name, NoMemory, Path, is_file_name, line_col};
use sve_row::{add_number, decoded, field, name_of, number_of, spell, word, yes};

/// How many bytes a name has, and whether these are those that it was made of, in a copy too.
fn name_text(alloc: Global, name: &Name, bytes: &[u8]) -> Result<String, NoMemory> {
    let copy = name.copy()?;
    let is_kept = name.bytes() == bytes && copy == *name;
    let mut out = String::new(alloc);
    add_number(&mut out, name.bytes().len())?;
    out.push_str(if is_kept { " bytes" } else { " bytes, others" })?;
    Ok(out)
}

/// How many bytes a name would have that is too long.
fn long_text(alloc: Global, count: usize) -> Result<String, NoMemory> {
    let mut out = String::from_str(alloc, "too long, ")?;
    add_number(&mut out, count)?;
    out.push_str(" bytes")?;
    Ok(out)
}

/// The answer to a row `name`.
pub fn name_row(alloc: Global, row: &str) -> Result<Option<String>, NoMemory> {
    let bytes = decoded(alloc, row)?;
    let answer = match Name::of(alloc, &bytes) {
        Ok(name) => name_text(alloc, &name, &bytes)?,
        Err(BadName::Empty) => String::from_str(alloc, "empty")?,
        Err(BadName::TooLong(count)) => long_text(alloc, count)?,
        Err(BadName::NoMemory) => return Err(AllocError),
    };
    Ok(Some(answer))
}

/// How the first name stands to the second.
fn order_text(first: &Name, second: &Name) -> &'static str {
    match first.cmp(second) {
        Ordering::Less => "less",
        Ordering::Equal => "equal",
        Ordering::Greater => "greater",
    }
}

/// How a name stands to the one that a field spells, or nothing where it spells none.
fn order_to(alloc: Global, first: &Name, field: &str) -> Result<Option<&'static str>, NoMemory> {
    match name_of(alloc, &decoded(alloc, field)?)? {
        Some(second) => Ok(Some(order_text(first, &second))),
        None => Ok(None),
    }
}

/// The answer to a row `order`.
pub fn order_row(alloc: Global, row: &str) -> Result<Option<String>, NoMemory> {
    let (first, second) = field(row);
    let Some(first) = name_of(alloc, &decoded(alloc, first)?)? else {
        return Ok(None);
    };
    match order_to(alloc, &first, second)? {
        Some(answer) => Ok(Some(String::from_str(alloc, answer)?)),
        None => Ok(None),
    }
}

/// The answer to a row `file`.
pub fn file_row(alloc: Global, row: &str) -> Result<Option<String>, NoMemory> {
    let bytes = decoded(alloc, row)?;
    Ok(Some(String::from_str(alloc, yes(is_file_name(&bytes)))?))
}

/// Whether what is printed is read back as the same path, and a copy is the same.
fn is_read_back(alloc: Global, path: &Path, printed: &[u8]) -> Result<bool, NoMemory> {
    let copy = path.copy(alloc)?;
    match Path::read(alloc, printed) {
        Ok(again) => Ok(again == *path && copy == *path),
        Err(BadPath::At(_)) => Ok(false),
        Err(BadPath::NoMemory) => Err(AllocError),
    }
}

/// A path as it is printed.
fn path_text(alloc: Global, path: &Path) -> Result<String, NoMemory> {
    let printed = path.print(alloc)?;
    let is_read_back = is_read_back(alloc, path, &printed)?;
    let mut out = String::from_str(alloc, "`")?;
    spell(&mut out, &printed)?;
    out.push_str(if is_read_back { "`" } else { "` otherwise" })?;
    Ok(out)
}

/// How long the longest prefix is that begins a path.
fn prefix_text(alloc: Global, at: usize) -> Result<String, NoMemory> {
    let mut out = String::from_str(alloc, "at ")?;
    add_number(&mut out, at)?;
    Ok(out)
}

/// The answer to a row `path`.
pub fn path_row(alloc: Global, row: &str) -> Result<Option<String>, NoMemory> {
    let bytes = decoded(alloc, row)?;
    match Path::read(alloc, &bytes) {
        Ok(path) => Ok(Some(path_text(alloc, &path)?)),
        Err(BadPath::At(at)) => Ok(Some(prefix_text(alloc, at)?)),
        Err(BadPath::NoMemory) => Err(AllocError),
    }
}

/// The answer to a row `line`.
pub fn line_row(alloc: Global, row: &str) -> Result<Option<String>, NoMemory> {
    let (at, text) = word(row);
    let text = decoded(alloc, text)?;
    let Some(at) = number_of(at) else {
        return Ok(None);
    };
    if at > text.len() || text.len() > 1_000_000 {
        return Ok(None);
    }
    let (line, column) = line_col(&text, at);
    let mut out = String::new(alloc);
    add_number(&mut out, line as usize)?;
    out.push(':')?;
    add_number(&mut out, column as usize)?;
    Ok(Some(out))
}
