//! Rows of uses (IEEE 1800-2017, 9.3.1, clause 12 and 23.9).
use crate::shown::Shown;
use std::alloc::Global;
use sve_bytes::NoMemory;
use sve_row::{Table, decoded};
use sve_row_element::element_of;
use sve_simple_use::names_in_events;
use sve_statement_use::{names_in_block_items, names_in_statement};
use sve_tree::{Definition, Element, Item, NetAssignment, Word};
use sve_use::{names_in, names_in_left_side};

/// The rows of uses.
#[derive(Clone, Copy)]
pub struct Uses;

impl Table for Uses {
    fn answer(&self, alloc: Global, kind: &str, row: &str) -> Result<Option<String>, NoMemory> {
        match kind {
            "uses" => uses_row(alloc, row),
            _ => Ok(None),
        }
    }
}

/// Shows continuous assignments.
fn show_assignments(assignments: &[NetAssignment], shown: &mut Shown<'_>) -> Result<(), NoMemory> {
    for assignment in assignments {
        names_in_left_side(&assignment.left, shown)?;
        names_in(&assignment.value, shown)?;
    }
    Ok(())
}

/// Shows an item that is a continuous assignment, a procedure or a function.
fn show_item(item: &Item, shown: &mut Shown<'_>) -> Result<(), NoMemory> {
    match item {
        Item::Assign { assignments } => show_assignments(assignments.assignments.as_slice(), shown),
        Item::Plain { procedure } => names_in_statement(&procedure.statement, shown),
        Item::Clocked { procedure } => {
            names_in_events(&procedure.control, shown)?;
            names_in_statement(&procedure.statement, shown)
        }
        Item::Function { function } => names_in_block_items(&function.items, shown),
        _ => Ok(()),
    }
}

/// Shows items.
fn show_items(items: &[Item], shown: &mut Shown<'_>) -> Result<(), NoMemory> {
    for item in items {
        show_item(item, shown)?;
    }
    Ok(())
}

/// What the items of a module or an interface come to.
fn uses_text(alloc: Global, words: &[Word], definition: &Definition) -> Result<String, NoMemory> {
    let mut shown = Shown::new(alloc, words);
    show_items(&definition.items, &mut shown)?;
    shown.into_text()
}

/// What an element comes to, where it is a module or an interface.
fn element_text(alloc: Global, tree: &Element) -> Result<Option<String>, NoMemory> {
    match tree.definition() {
        Some(definition) => Ok(Some(uses_text(alloc, &tree.words, definition)?)),
        None => Ok(None),
    }
}

/// The answer to a row.
fn uses_row(alloc: Global, row: &str) -> Result<Option<String>, NoMemory> {
    let text = decoded(alloc, row)?;
    match element_of(alloc, &text)? {
        Some(tree) => element_text(alloc, &tree),
        None => Ok(None),
    }
}
