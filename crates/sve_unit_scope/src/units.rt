//! The scope of a compilation unit as the definition of an element sees it.
ghost use Rattle.std.specs.Prelude.{◌≡◌, IfOk};
ghost use Rattle.std.specs.List.{fold};
ghost use Rattle.sve_package.specs.Units.{turned};
ghost use Rattle.sve_unit_scope.specs.Units.{unit_of, with_unit_items};

use crate::elements::ChunkElement;
use std::alloc::Global;
use sve_bytes::{Name, NoMemory};
use sve_contents::Contents;
use sve_known::Known;
use sve_package::{Typing, with_unit_items};
use sve_table::Table;
use sve_tree::Element;

/// The scope, whose text goes on in this chunk of a file.
fn turned(contents: Contents, file: Name, chunk: u32) -> Contents
    ensures { result ≡ turned contents file chunk }
{
    let mut contents = contents;
    contents.scope.file = file;
    contents.scope.chunk = chunk;
    contents
}

/// The scope behind the items of elements of a file, one after another.
fn behind<T: Typing>(
    alloc: Global,
    typing: &T,
    packages: &Table<Known>,
    file: &Name,
    contents: Contents,
    elements: &[ChunkElement],
) -> Result<Contents, NoMemory>
    ensures { IfOk result (λ c. c ≡ fold (with_unit_items (T.reads typing.now) packages.now file.now) contents elements.now) }
{
    let mut contents = contents;
    'elements: for each in elements {
        contents = with_unit_items(
            alloc,
            typing,
            packages,
            contents,
            file,
            each.chunk(),
            each.element(),
        )?;
    }
    Ok(contents)
}

/// The scope of the compilation unit of a file as the definition of an element in this chunk sees it, behind the elements in front of it (IEEE
/// 1800-2017, 3.12.1).
///
/// # Errors
/// For want of memory alone.
pub fn unit_of<T: Typing>(
    alloc: Global,
    typing: &T,
    packages: &Table<Known>,
    file: &Name,
    chunk: u32,
    elements: &[ChunkElement],
    own: &Element,
) -> Result<Contents, NoMemory>
    ensures { IfOk result (λ c. c ≡ unit_of (T.reads typing.now) packages.now file.now chunk elements.now own.now) }
{
    let contents = Contents::new(alloc, file.copy()?, chunk);
    let contents = behind(alloc, typing, packages, file, contents, elements)?;
    let contents = with_unit_items(alloc, typing, packages, contents, file, chunk, own)?;
    Ok(turned(contents, file.copy()?, chunk))
}
