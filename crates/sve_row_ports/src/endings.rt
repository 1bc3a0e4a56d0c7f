//! Which names of rows are those of interfaces and of modules.
ghost use Rattle.std.specs.Prelude.{◌≡◌, Some};
ghost use Rattle.sve_row_ports.specs.Endings.{kind_by_end};

use sve_bytes::Name;
use sve_port::{DesignKind, Interfaces};

/// What a name that ends so is.
fn kind_by_end(byte: u8) -> Option<DesignKind>
    ensures { result ≡ kind_by_end (Some byte) }
{
    if byte == b'f' {
        Some(DesignKind::Interface)
    } else if byte == b'd' {
        Some(DesignKind::Module)
    } else {
        None
    }
}

/// Interfaces and modules by how their names end: each name that ends in `f` is an interface, and each that ends in `d` a module.
#[derive(Clone, Copy)]
pub struct ByEnding;

impl Interfaces for ByEnding {
    ghost use Rattle.sve_row_ports.specs.Endings.{kind_of_name};

    ghost kinds = { λ _ name. kind_of_name name };

    fn kind(&self, name: &Name) -> Option<DesignKind> {
        let bytes = name.bytes();
        match bytes.get(bytes.len().saturating_sub(1)) {
            Some(byte) => kind_by_end(*byte),
            None => None,
        }
    }
}
