//! All names of an interface.
ghost use Rattle.std.specs.Prelude.{◌≡◌, IfOk};
ghost use Rattle.sve_item_names.specs.Declarations.{header_headings};
ghost use Rattle.sve_ahead.specs.Ahead.{names_declared};
ghost use Rattle.sve_iface.specs.Names.{interface_names};

use crate::modports::modports_of;
use std::alloc::Global;
use sve_ahead::names_declared;
use sve_bytes::{Name, NoMemory};
use sve_item_names::header_names;
use sve_scope::InterfaceNames;
use sve_table::Table;
use sve_tree::{Definition, Word};

/// All names that the outermost scope of a definition declares.
fn all_names(
    alloc: Global,
    words: &[Word],
    definition: &Definition,
) -> Result<Table<Name>, NoMemory>
    ensures { IfOk result (λ names. names ≡ names_declared words.now (header_headings definition.now.header) definition.now.items.items) }
{
    let headings = header_names(alloc, &definition.header)?;
    names_declared(alloc, words, headings.as_slice(), &definition.items)
}

/// The names of an interface by its text (IEEE 1800-2017, 25.3 and 25.5): all that its outermost scope declares, with its ports, instances
/// and the labels of its generate blocks, selected or not; and its modports, of which the first of a name counts, each with the names of
/// its members. The words are those of the chunk of the text. It evaluates nothing.
///
/// # Errors
/// For want of memory alone.
pub fn interface_names(
    alloc: Global,
    words: &[Word],
    definition: &Definition,
) -> Result<InterfaceNames, NoMemory>
    ensures { IfOk result (λ names. names ≡ interface_names words.now definition.now) }
{
    Ok(InterfaceNames {
        all: all_names(alloc, words, definition)?,
        modports: modports_of(alloc, words, &definition.items)?,
    })
}
