//! The scope of a compilation unit.
ghost use Rattle.std.specs.Prelude.{◌≡◌, IfOk};
ghost use Rattle.std.specs.List.{fold};
ghost use Rattle.sve_package.specs.Units.{turned, unit_scope, with_element, with_unit};

use crate::Typing;
use crate::items::with_items;
use std::alloc::Global;
use sve_bytes::{Name, NoMemory};
use sve_contents::Contents;
use sve_index::FileElement;
use sve_known::Known;
use sve_table::Table;
use sve_tree::Element;

/// The scope, whose text goes on in this chunk of a file.
fn turned(contents: Contents, file: Name, chunk: u32) -> Contents
    ensures { result ≡ turned contents file chunk }
{
    let mut contents = contents;
    contents.scope.file = file;
    contents.scope.chunk = chunk;
    contents
}

/// The scope of a compilation unit, and what is to be said of it, behind the items that an element has in front of its module,
/// interface or package (IEEE 1800-2017, 3.12.1): each over what those before it left, in earlier elements too.
///
/// # Errors
/// For want of memory alone.
pub fn with_unit_items<T: Typing>(
    alloc: Global,
    typing: &T,
    packages: &Table<Known>,
    contents: Contents,
    file: &Name,
    chunk: u32,
    element: &Element,
) -> Result<Contents, NoMemory>
    ensures { IfOk result (λ c. c ≡ with_unit (T.reads typing.now) packages.now contents file.now chunk element.now) }
{
    let words = element.words.as_slice();
    let contents = turned(contents, file.copy()?, chunk);
    with_items(alloc, typing, packages, words, contents, &element.items)
}

/// The scope behind the items of elements, one after another.
fn with_elements<T: Typing>(
    alloc: Global,
    typing: &T,
    packages: &Table<Known>,
    contents: Contents,
    elements: &[FileElement],
) -> Result<Contents, NoMemory>
    ensures { IfOk result (λ c. c ≡ fold (with_element (T.reads typing.now) packages.now) contents elements.now) }
{
    let mut contents = contents;
    'elements: for each in elements {
        let element = each.element();
        contents = with_unit_items(
            alloc, typing, packages, contents, &each.file, each.chunk, element,
        )?;
    }
    Ok(contents)
}

/// The scope of a compilation unit as a chunk of a file sees it, and what is to be said of it: the items of these elements of the unit,
/// which stand in the order of their text up to that chunk (IEEE 1800-2017, 3.12.1).
///
/// # Errors
/// For want of memory alone.
pub fn unit_scope<T: Typing>(
    alloc: Global,
    typing: &T,
    packages: &Table<Known>,
    file: &Name,
    chunk: u32,
    elements: &[FileElement],
) -> Result<Contents, NoMemory>
    ensures { IfOk result (λ c. c ≡ unit_scope (T.reads typing.now) packages.now file.now chunk elements.now) }
{
    let contents = Contents::new(alloc, file.copy()?, chunk);
    let contents = with_elements(alloc, typing, packages, contents, elements)?;
    Ok(turned(contents, file.copy()?, chunk))
}
