//! The rows of bodies.
use crate::asked::{Asked, asked_in};
use crate::found::write_body;
use std::alloc::{AllocError, Global};
use std::io;
use std::io::Write;
use std::sync::Arc;
use sve_bytes::{Name, NoMemory};
use sve_elaborate::elaborate;
use sve_facts::Body;
use sve_index::{FileElement, Index, index_of};
use sve_io::Halt;
use sve_row::{Lines, fields_of, name_of, write_line};
use sve_row_bodies::World;
use sve_row_element::element_of;
use sve_row_packages::{File, file_of};

/// The most chunks of a row.
const MOST: usize = 100_000;

/// The rows of bodies.
#[derive(Clone, Copy)]
pub struct Bodies;

impl Lines for Bodies {
    fn write<W: Write>(&self, alloc: Global, line: &str, out: &mut W) -> io::Result<()> {
        write_line(out, line)?;
        if line.is_empty() || line.starts_with('#') {
            return Ok(());
        }
        write_row(alloc, line, out)
    }
}

/// Writes what came of a row.
fn write_row<W: Write>(alloc: Global, line: &str, out: &mut W) -> io::Result<()> {
    match answer_of(alloc, line)? {
        Some((body, chunk)) => write_body(alloc, out, &body, chunk),
        None => write_line(out, "  no such row"),
    }
}

/// The body that a row asks for, and its chunk; nothing where the row is of no form.
fn answer_of(alloc: Global, line: &str) -> Result<Option<(Body, u32)>, NoMemory> {
    let fields = fields_of(alloc, line)?;
    let Some((first, chunks)) = fields.as_slice().split_first() else {
        return Ok(None);
    };
    match (asked_in(alloc, first)?, name_of(alloc, b"a.sv")?) {
        (Some(asked), Some(file)) => body_among(alloc, &asked, &file, chunks),
        _ => Ok(None),
    }
}

/// The elements of chunks, unless one is refused.
fn elements_of(
    alloc: Global,
    file: &Name,
    chunks: &[&str],
) -> Result<Option<Vec<FileElement>>, NoMemory> {
    let mut elements = Vec::new(alloc);
    for text in chunks {
        let Some(tree) = element_of(alloc, text.as_bytes())? else {
            return Ok(None);
        };
        elements.push(FileElement {
            file: file.copy()?,
            chunk: elements.len().min(MOST) as u32,
            element: Arc::new(alloc, tree)?,
        })?;
    }
    Ok(Some(elements))
}

/// The body that is asked for among the chunks of a file, unless one is refused.
fn body_among(
    alloc: Global,
    asked: &Asked,
    file: &Name,
    chunks: &[&str],
) -> Result<Option<(Body, u32)>, NoMemory> {
    match (
        elements_of(alloc, file, chunks)?,
        file_of(alloc, file, chunks)?,
    ) {
        (Some(elements), Some(told)) => { Ok(Some(body_in(alloc, asked, file, &elements, &told)?)) }
        _ => Ok(None),
    }
}

/// The chunk of a definition; where there is none, one that is none.
fn chunk_of(index: &Index, name: &Name) -> u32 {
    match index.definitions.get(name) {
        Some(def) => def.chunk,
        None => u32::MAX,
    }
}

/// The body that is asked for among the elements of a file, and its chunk.
fn body_in(
    alloc: Global,
    asked: &Asked,
    file: &Name,
    elements: &[FileElement],
    told: &File,
) -> Result<(Body, u32), NoMemory> {
    let index = Arc::new(alloc, index_of(alloc, elements)?)?;
    let chunk = chunk_of(&index, &asked.spec.definition);
    let mut world = World {
        alloc,
        file,
        elements,
        index: &index,
        known: &told.known,
        none: (chunk, asked.none),
    };
    Ok((elaborated(alloc, asked, &mut world)?, chunk))
}

/// The body that is asked for. The world stops nothing.
fn elaborated(alloc: Global, asked: &Asked, world: &mut World<'_>) -> Result<Body, NoMemory> {
    match elaborate(alloc, &asked.spec, asked.most, world) {
        Ok(body) => Ok(body),
        Err(Halt::Stopped(_) | Halt::NoMemory) => Err(AllocError),
    }
}
