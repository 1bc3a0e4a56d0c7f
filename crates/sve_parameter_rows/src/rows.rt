use crate::overrides::give_row;
use crate::parameters::resolve_row;
use std::alloc::Global;
use sve_bytes::{Name, NoMemory};
use sve_row::{Table, field, name_of};
use sve_row_element::element_of;
use sve_tree::Element;

/// The rows of parameters.
#[derive(Clone, Copy)]
pub struct Parameters;

impl Table for Parameters {
    fn answer(&self, alloc: Global, kind: &str, row: &str) -> Result<Option<String>, NoMemory> {
        match name_of(alloc, b"table")? {
            Some(file) => answer_in(alloc, &file, kind, row),
            None => Ok(None),
        }
    }
}

/// What comes of a row of this kind, in this file.
fn answer_in(
    alloc: Global,
    file: &Name,
    kind: &str,
    row: &str,
) -> Result<Option<String>, NoMemory> {
    let (module, rest) = field(row);
    match element_of(alloc, module.as_bytes())? {
        Some(tree) => answer_to(alloc, file, kind, &tree, rest),
        None => Ok(None),
    }
}

/// What comes of a row of this kind over this element, with these fields behind it.
fn answer_to(
    alloc: Global,
    file: &Name,
    kind: &str,
    tree: &Element,
    rest: &str,
) -> Result<Option<String>, NoMemory> {
    match kind {
        "give" => give_row(alloc, file, tree, rest),
        "resolve" => resolve_row(alloc, file, tree, rest),
        _ => Ok(None),
    }
}

/// The number of nodes that a field says, and as many as there can be where it says none.
pub fn most_of(text: &str) -> u64 {
    text.trim().parse::<u64>().unwrap_or(u64::MAX)
}
