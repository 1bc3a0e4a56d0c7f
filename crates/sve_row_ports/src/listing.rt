ghost use Rattle.sve_fault.specs.Counts.{IsFuel};

use crate::endings::ByEnding;
use std::alloc::{AllocError, Global};
use sve_bytes::{Name, NoMemory};
use sve_fault::{Fuel, Halted};
use sve_given::Scope;
use sve_port::{Listing, ports};
use sve_row_element::element_of;
use sve_tree::Element;

/// The ports of an element among names, where it has a header.
///
/// # Errors
/// For want of memory, and where the count of nodes passes its most.
pub fn listing_of(
    alloc: Global,
    tree: &Element,
    scope: &Scope,
    fuel: &mut Fuel,
) -> Result<Option<Listing>, Halted>
    requires { IsFuel fuel.old }
{
    match tree.definition() {
        Some(definition) => {
            let header = &definition.header;
            Ok(Some(ports(alloc, header, &ByEnding, scope, fuel)?))
        }
        None => Ok(None),
    }
}

/// The ports of an element without names around it, where it has a header.
fn ports_alone(alloc: Global, file: &Name, tree: &Element) -> Result<Option<Listing>, NoMemory> {
    let scope = Scope {
        alloc,
        file,
        words: tree.words.as_slice(),
        names: &[],
    };
    let mut fuel = Fuel {
        used: 0,
        most: u64::MAX,
    };
    match listing_of(alloc, tree, &scope, &mut fuel) {
        Ok(listing) => Ok(listing),
        Err(Halted::Over) => Ok(None),
        Err(Halted::NoMemory) => Err(AllocError),
    }
}

/// The ports of the module or the interface that a text is, without names around it; nothing where it is none.
///
/// # Errors
/// For want of memory alone.
pub fn ports_of(alloc: Global, file: &Name, text: &str) -> Result<Option<Listing>, NoMemory> {
    match element_of(alloc, text.as_bytes())? {
        Some(tree) => ports_alone(alloc, file, &tree),
        None => Ok(None),
    }
}
