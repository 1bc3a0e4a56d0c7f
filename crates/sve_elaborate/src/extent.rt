ghost use Rattle.std.specs.Prelude.{◌≡◌, IfOk};
ghost use Rattle.sve_elaborate.specs.Bodies.{instantiations_to, items_to, own_to};

use std::alloc::Global;
use sve_bytes::NoMemory;
use sve_design_kinds::{instantiations, own_names};
use sve_scope::InterfaceNames;
use sve_tree::{Definition, Element, Item};

/// How far the text of a module or an interface is gone over.
#[derive(Clone, Copy)]
pub(crate) enum Extent {
    /// The header alone (IEEE 1800-2017, 23.2): what is declared behind it is known to come, and nothing else of it.
    Header,
    /// All of it.
    Whole,
}

impl Extent {
    /// The items behind the header that are gone over.
    pub(crate) fn items(self, definition: &Definition) -> &[Item]
        ensures { result.now ≡ items_to self definition.now }
    {
        match self {
            Extent::Header => &[],
            Extent::Whole => &definition.items,
        }
    }

    /// The tokens at which the instantiations begin that are gone over, selected or not.
    pub(crate) fn instantiations(
        self,
        alloc: Global,
        element: &Element,
    ) -> Result<Vec<u32>, NoMemory>
        ensures { IfOk result (λ tokens. tokens.items ≡ instantiations_to self element.now) }
    {
        match self {
            Extent::Header => Ok(Vec::new(alloc)),
            Extent::Whole => instantiations(alloc, element),
        }
    }

    /// The names of the definition itself, where it is an interface whose items are gone over.
    pub(crate) fn own_names(
        self,
        alloc: Global,
        element: &Element,
    ) -> Result<Option<InterfaceNames>, NoMemory>
        ensures { IfOk result (λ names. names ≡ own_to self element.now) }
    {
        match self {
            Extent::Header => Ok(None),
            Extent::Whole => own_names(alloc, element),
        }
    }
}
