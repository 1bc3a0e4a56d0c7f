//! Kinds of declarations, by their words.
use std::alloc::Global;
use sve_bytes::{List, NoMemory};
use sve_row::name_of;
use sve_scope::{Constant, Face, FaceName, SharedType, What};
use sve_types::{Base, Ty, Vec_};

/// A type, for declarations that have one.
fn logic(alloc: Global) -> Result<SharedType, NoMemory> {
    SharedType::of(
        alloc,
        Ty {
            base: Base::Vector(Vec_::Logic, false),
            packed: List::of(Vec::new(alloc)),
            unpacked: List::of(Vec::new(alloc)),
        },
    )
}

/// A constant of this type, without a value.
fn constant(alloc: Global) -> Result<Constant, NoMemory> {
    Ok(Constant {
        ty: Some(logic(alloc)?),
        value: None,
    })
}

/// An interface port.
fn interface_port(alloc: Global) -> Result<Option<What>, NoMemory> {
    match name_of(alloc, b"i")? {
        Some(interface) => Ok(Some(What::InterfacePort(Face {
            name: FaceName {
                interface,
                modport: None,
            },
            names: None,
        }))),
        None => Ok(None),
    }
}

/// What a name of one of these kinds stands for, which have a type or a value.
fn typed(alloc: Global, kind: &str) -> Result<Option<What>, NoMemory> {
    match kind {
        "net" => Ok(Some(What::Net(logic(alloc)?))),
        "variable" => Ok(Some(What::Variable(logic(alloc)?))),
        "parameter" => Ok(Some(What::Parameter(constant(alloc)?))),
        "localparam" => Ok(Some(What::LocalParameter(constant(alloc)?))),
        "type" => Ok(Some(What::TypeName(logic(alloc)?))),
        "enumname" => Ok(Some(What::EnumName(constant(alloc)?))),
        "interfaceport" => interface_port(alloc),
        _ => Ok(None),
    }
}

/// What a name of this kind stands for.
pub fn what_of(alloc: Global, kind: &str) -> Result<Option<What>, NoMemory> {
    match kind {
        "genvar" => Ok(Some(What::Genvar)),
        "function" => Ok(Some(What::Function(None))),
        "instance" => Ok(Some(What::Instance)),
        "block" => Ok(Some(What::Block)),
        "modport" => Ok(Some(What::Modport)),
        _ => typed(alloc, kind),
    }
}
