//! The names of a definition itself.
ghost use Rattle.std.specs.Prelude.{◌≡◌, IfOk};
ghost use Rattle.sve_design_kinds.specs.Kinds.{names_of_design, own_names};

use std::alloc::Global;
use sve_bytes::NoMemory;
use sve_iface::interface_names;
use sve_scope::InterfaceNames;
use sve_tree::{Design, Element, Word};

/// The names of a design, where it is an interface.
fn names_of_design(
    alloc: Global,
    words: &[Word],
    design: &Design,
) -> Result<Option<InterfaceNames>, NoMemory>
    ensures { IfOk result (λ names. names ≡ names_of_design words.now design.now) }
{
    match design {
        Design::Module { .. } => Ok(None),
        Design::Interface { definition, .. } => {
            Ok(Some(interface_names(alloc, words, definition)?))
        }
        Design::Package { .. } => Ok(None),
    }
}

/// The names of the interface of an element, where it has one (IEEE 1800-2017, 25.3).
///
/// # Errors
/// For want of memory alone.
pub fn own_names(alloc: Global, element: &Element) -> Result<Option<InterfaceNames>, NoMemory>
    ensures { IfOk result (λ names. names ≡ own_names element.now) }
{
    match &element.design {
        Some(design) => names_of_design(alloc, &element.words, design),
        None => Ok(None),
    }
}
