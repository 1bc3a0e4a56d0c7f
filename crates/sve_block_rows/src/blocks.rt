//! Rows of generate blocks (IEEE 1800-2017, clause 27).
//!
//! - `names TEXT | NAME NAME ..`: the names of the blocks without a label in a module or an interface, one for each generate
//!   construct of its scope, where these names are declared in it.
use crate::reading::element_of;
use std::alloc::Global;
use sve_bytes::{Name, NoMemory};
use sve_generate::block_names;
use sve_row::{Table as Rows, decoded, fields_of, name_of, spell, words_of};
use sve_table::Table;
use sve_tree::Item;

/// The rows of generate blocks.
#[derive(Clone, Copy)]
pub struct Blocks;

impl Rows for Blocks {
    fn answer(&self, alloc: Global, kind: &str, row: &str) -> Result<Option<String>, NoMemory> {
        match kind {
            "names" => names_row(alloc, row),
            _ => Ok(None),
        }
    }
}

/// A table of the names in a field, where each word is one.
fn table_of(alloc: Global, field: &str) -> Result<Table<Name>, NoMemory> {
    let mut table = Table::new(alloc);
    for word in words_of(alloc, field)? {
        if let Some(name) = name_of(alloc, word.as_bytes())? {
            let _is_new = table.add(name)?;
        }
    }
    Ok(table)
}

/// The names, with a blank between each two.
fn listed(alloc: Global, names: &[Name]) -> Result<String, NoMemory> {
    let mut out = String::new(alloc);
    for name in names {
        if !out.is_empty() {
            out.push(' ')?;
        }
        spell(&mut out, name.bytes())?;
    }
    if out.is_empty() {
        out.push_str("none")?;
    }
    Ok(out)
}

/// The names of the blocks without a label of these items.
fn names_text(alloc: Global, items: &[Item], declared: &str) -> Result<String, NoMemory> {
    let table = table_of(alloc, declared)?;
    let names = block_names(alloc, items, &table)?;
    listed(alloc, &names)
}

/// The answer to a row `names`.
fn names_row(alloc: Global, row: &str) -> Result<Option<String>, NoMemory> {
    let fields = fields_of(alloc, row)?;
    let text = match fields.get(0) {
        Some(field) => decoded(alloc, field)?,
        None => return Ok(None),
    };
    let declared: &str = match fields.get(1) {
        Some(field) => field,
        None => "",
    };
    let Some(tree) = element_of(alloc, &text)? else {
        return Ok(None);
    };
    match tree.definition() {
        Some(definition) => Ok(Some(names_text(alloc, &definition.items, declared)?)),
        None => Ok(None),
    }
}
