//! The packages of a design, by their names.
ghost use Rattle.std.specs.Prelude.{◌≡◌, IfOk, map, option_map};
ghost use Rattle.sve_packages.specs.Packages.{design_package, name_of, package_of, package_text, packages_named};

use std::alloc::Global;
use sve_bytes::{Name, NoMemory};
use sve_index::FileElement;
use sve_known::name_at;
use sve_tree::{Design, Element};

/// A package of a design: its name, and its element.
#[derive(Clone, Copy)]
pub(crate) struct DesignPackage<'a> {
    /// Its name.
    pub(crate) name: &'a Name,
    /// Its element, and where that stands.
    pub(crate) source: &'a FileElement,
}

/// The name of the package of an element.
fn name_of(element: &Element) -> Option<&Name>
    ensures { option_map (λ n. n.now) result ≡ name_of element.now }
{
    match &element.design {
        Some(Design::Package { unit }) => name_at(element.words.as_slice(), unit.name),
        _ => None,
    }
}

/// The package of an element, where it has one with a name.
#[tactic(auto, unfolding(crate::specs::Packages::package_of))]
fn package_of(source: &FileElement) -> Option<DesignPackage<'_>>
    ensures { option_map design_package result ≡ package_of (package_text source.now) }
{
    match name_of(source.element()) {
        Some(name) => Some(DesignPackage { name, source }),
        None => None,
    }
}

/// The packages of elements, in their order.
pub(crate) fn packages_named<'a>(
    alloc: Global,
    sources: &'a [FileElement],
) -> Result<Vec<DesignPackage<'a>>, NoMemory>
    ensures { IfOk result (λ all. map design_package all.items ≡ packages_named (map package_text sources.now)) }
{
    let mut all = Vec::new(alloc);
    'sources: for source in sources {
        if let Some(package) = package_of(source) {
            all.push(package)?;
        }
    }
    Ok(all)
}
