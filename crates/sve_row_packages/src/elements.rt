//! The elements of the chunks of a row.
use std::alloc::Global;
use std::sync::Arc;
use sve_bytes::{Name, NoMemory};
use sve_index::FileElement;
use sve_known::name_at;
use sve_row_element::element_of;
use sve_tree::{Design, Element};

/// The most chunks of a row.
pub(crate) const MOST: usize = 100_000;

/// The head of a field that asks for the meaning of a name, in place of a chunk.
pub const SEE: &str = "see ";

/// The element of a chunk, unless it is refused.
fn element_in(
    alloc: Global,
    file: &Name,
    chunk: usize,
    text: &str,
) -> Result<Option<FileElement>, NoMemory> {
    match element_of(alloc, text.as_bytes())? {
        Some(tree) => Ok(Some(FileElement {
            file: file.copy()?,
            chunk: chunk.min(MOST) as u32,
            element: Arc::new(alloc, tree)?,
        })),
        None => Ok(None),
    }
}

/// The elements of the chunks of a row, unless one is refused.
pub(crate) fn elements_of(
    alloc: Global,
    file: &Name,
    fields: &[&str],
) -> Result<Option<Vec<FileElement>>, NoMemory> {
    let mut elements = Vec::new(alloc);
    for text in fields {
        if !text.starts_with(SEE) {
            match element_in(alloc, file, elements.len(), text)? {
                Some(tree) => elements.push(tree)?,
                None => return Ok(None),
            }
        }
    }
    Ok(Some(elements))
}

/// The name of the package of an element.
pub(crate) fn package_name(tree: &Element) -> Option<&Name> {
    match &tree.design {
        Some(Design::Package { unit }) => name_at(&tree.words, unit.name),
        _ => None,
    }
}
