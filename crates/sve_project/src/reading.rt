//! The packages that an index names.
ghost use Rattle.std.specs.Prelude.{◌≡◌, ◌++◌, IfOk, OnOk, map};
ghost use Rattle.std.specs.List.{flat_map};
ghost use Rattle.sve_packages.specs.Packages.{package_text};
ghost use Rattle.sve_project.specs.Projects.{packages_in, text_of};

use crate::lookups::tree_at;
use std::alloc::{AllocError, Global};
use std::sync::Arc;
use sve_bytes::NoMemory;
use sve_front::Unit;
use sve_index::{Def, FileElement, Index};
use sve_packages::{KnownPackages, known_packages};
use sve_table::Table;

/// Adds the element of a package, where its chunk has a tree. The tree is shared.
fn add_element(
    units: &Table<Unit>,
    def: &Def,
    elements: &mut Vec<FileElement>,
) -> Result<(), NoMemory>
    ensures { OnOk result (map package_text elements.new.items ≡ map package_text elements.old.items ++ text_of units.now def.now) }
{
    match tree_at(units, &def.file, def.chunk) {
        Some(tree) => {
            elements.push(FileElement {
                file: def.file.copy()?,
                chunk: def.chunk,
                element: Arc::try_clone(tree)?,
            })?;
            Ok(())
        }
        None => Ok(()),
    }
}

/// The elements of the packages that an index names, in its order.
#[tactic(auto, using(crate::proofs::Texts::one_more, crate::proofs::Texts::none_left))]
fn package_elements(
    alloc: Global,
    units: &Table<Unit>,
    index: &Index,
) -> Result<Vec<FileElement>, NoMemory>
    ensures { IfOk result (λ elements. map package_text elements.items ≡ flat_map (text_of units.now) index.now.packages) }
{
    let mut elements = Vec::new(alloc);
    'packages: for place in 0..index.packages.len() {
        add_element(units, index.packages.at(place), &mut elements)?;
    }
    Ok(elements)
}

/// The packages that an index names. Where they were more than can be numbered in 32 bits, which no files make, it answers want of
/// memory.
pub(crate) fn packages_in(
    alloc: Global,
    units: &Table<Unit>,
    index: &Index,
) -> Result<KnownPackages, NoMemory>
    ensures { IfOk result (λ packages. packages ≡ packages_in units.now index.now) }
{
    let sources = package_elements(alloc, units, index)?;
    let sources = sources.as_slice();
    if sources.len() > u32::MAX as usize {
        return Err(AllocError);
    }
    known_packages(alloc, sources)
}
