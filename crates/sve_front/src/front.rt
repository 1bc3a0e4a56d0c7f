//! The tops of the design that the files of a revision are.
ghost use Rattle.std.specs.Prelude.{◌≡◌, IfOk};
ghost use Rattle.sve_front.specs.Units.{unit_names};
ghost use Rattle.sve_front.specs.Elements.{AreElementsOf};
ghost use Rattle.sve_front.specs.Fronts.{AreTops};

use crate::reading::{Reading, read_units};
use std::alloc::Global;
use sve_bytes::{List, Name, NoMemory};
use sve_index::{FileElement, index_of};
use sve_text::Files;

/// The tops among the elements of all units.
fn tops_among(
    alloc: Global,
    files: &Files,
    elements: &[FileElement],
) -> Result<List<Name>, NoMemory>
    requires { AreElementsOf files.now.rows (unit_names files.now.rows) elements.now }
    ensures { IfOk result (λ tops. AreTops files.now.rows tops) }
{
    let _ = files;
    let index = index_of(alloc, elements)?;
    Ok(index.tops)
}

/// The names of the top modules, in file order and then text order (IEEE 1800-2017, 23.3.1). It reads all units of the revision, each
/// once.
///
/// # Errors
/// For want of memory alone.
pub fn tops(alloc: Global, files: &Files) -> Result<List<Name>, NoMemory>
    ensures { IfOk result (λ tops. AreTops files.now.rows tops) }
{
    let Reading {
        units: _,
        elements,
        diags: _,
    } = read_units(alloc, files)?;
    tops_among(alloc, files, &elements)
}
