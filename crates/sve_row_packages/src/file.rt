//! What is told of a file.
use crate::elements::{MOST, elements_of, package_name};
use std::alloc::Global;
use sve_bytes::{Name, NoMemory};
use sve_contents::Contents;
use sve_function::Constants;
use sve_index::FileElement;
use sve_known::Known;
use sve_package::unit_scope;
use sve_packages::packages;
use sve_table::Table;

/// What is told of a chunk.
pub struct Chunk {
    /// The name of its package, where it has one.
    pub package: Option<Name>,
    /// Whether it has items of the compilation unit's scope.
    pub has_items: bool,
    /// The compilation unit's scope, as a chunk behind it sees it.
    pub unit: Contents,
}

impl Drop for Chunk {
    fn drop(self) {
        let Chunk {
            package: _,
            has_items: _,
            unit: _,
        } = self;
    }
}

/// What is told of a file.
pub struct File {
    /// Its packages.
    pub known: Table<Known>,
    /// Its chunks.
    pub chunks: Vec<Chunk>,
}

impl Drop for File {
    fn drop(self) {
        let File {
            known: _,
            chunks: _,
        } = self;
    }
}

/// The packages of elements; none where they are too many.
fn known_of(alloc: Global, elements: &[FileElement]) -> Result<Table<Known>, NoMemory> {
    if elements.len() > MOST {
        return Ok(Table::new(alloc));
    }
    packages(alloc, elements)
}

/// What is told of the last of these chunks of a file, which has this element.
fn chunk_of(
    alloc: Global,
    known: &Table<Known>,
    elements: &[FileElement],
    each: &FileElement,
) -> Result<Chunk, NoMemory> {
    let tree = each.element();
    let behind = each.chunk.wrapping_add(1);
    let unit = unit_scope(alloc, &Constants, known, &each.file, behind, elements)?;
    let package = match package_name(tree) {
        Some(name) => Some(name.copy()?),
        None => None,
    };
    Ok(Chunk {
        package,
        has_items: !tree.items.is_empty(),
        unit,
    })
}

/// What is told of the chunks of a file.
fn chunks_of(
    alloc: Global,
    known: &Table<Known>,
    elements: &[FileElement],
) -> Result<Vec<Chunk>, NoMemory> {
    let mut chunks = Vec::new(alloc);
    for (place, each) in elements.iter().enumerate() {
        chunks.push(chunk_of(alloc, known, &elements[..place + 1], each)?)?;
    }
    Ok(chunks)
}

/// What is told of a file with these elements.
fn told_of(alloc: Global, elements: &[FileElement]) -> Result<File, NoMemory> {
    let known = known_of(alloc, elements)?;
    let chunks = chunks_of(alloc, &known, elements)?;
    Ok(File { known, chunks })
}

/// What is told of the file of a row, whose fields are its chunks but for those that begin with `SEE`; nothing where one of its
/// chunks is refused.
///
/// # Errors
/// For want of memory alone.
pub fn file_of(alloc: Global, name: &Name, fields: &[&str]) -> Result<Option<File>, NoMemory> {
    match elements_of(alloc, name, fields)? {
        Some(elements) => Ok(Some(told_of(alloc, &elements)?)),
        None => Ok(None),
    }
}
