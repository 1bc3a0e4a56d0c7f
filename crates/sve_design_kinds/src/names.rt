//! Where a definition may name modules and interfaces.
ghost use Rattle.std.specs.Prelude.{◌≡◌, ◌++◌, IfOk, OnOk};
ghost use Rattle.std.specs.List.{flat_map};
ghost use Rattle.sve_design_kinds.specs.Names.{declared_type_names, header_names, instantiated, instantiations, plain_name, port_names, port_type_names, type_ref_names};

use std::alloc::Global;
use sve_bytes::NoMemory;
use sve_mention::{Mention, mentions};
use sve_tree::{DeclaredType, Element, Header, Port, PortType, ScopedName, TypeRef};

/// Adds a name of no package.
fn add_plain(name: ScopedName, found: &mut Vec<u32>) -> Result<(), NoMemory>
    ensures { OnOk result (found.new.items ≡ found.old.items ++ plain_name name.scope name.name) }
{
    match name.scope {
        Some(_) => Ok(()),
        None => {
            found.push(name.name)?;
            Ok(())
        }
    }
}

/// Adds the name that a type is.
fn in_type_ref(data_type: &TypeRef, found: &mut Vec<u32>) -> Result<(), NoMemory>
    ensures { OnOk result (found.new.items ≡ found.old.items ++ type_ref_names data_type.now) }
{
    match data_type {
        TypeRef::Written { .. } => Ok(()),
        TypeRef::Named { named } => add_plain(named.name, found),
    }
}

/// Adds the name that the type of a declared name is.
fn in_declared_type(data_type: &DeclaredType, found: &mut Vec<u32>) -> Result<(), NoMemory>
    ensures { OnOk result (found.new.items ≡ found.old.items ++ declared_type_names data_type.now) }
{
    match data_type {
        DeclaredType::Explicit { data_type } => in_type_ref(data_type, found),
        DeclaredType::Implicit { .. } => Ok(()),
    }
}

/// Adds the name that a port has in place of a type.
fn in_port_type(port_type: &PortType, found: &mut Vec<u32>) -> Result<(), NoMemory>
    ensures { OnOk result (found.new.items ≡ found.old.items ++ port_type_names port_type.now) }
{
    match port_type {
        PortType::Data { data_type } => in_declared_type(data_type, found),
        PortType::Interface { interface, .. } => {
            found.push(*interface)?;
            Ok(())
        }
    }
}

/// Adds the names that ports have in place of types.
fn in_ports(ports: &[Port], found: &mut Vec<u32>) -> Result<(), NoMemory>
    ensures { OnOk result (found.new.items ≡ found.old.items ++ flat_map port_names ports.now) }
{
    for port in ports {
        in_port_type(&port.port_type, found)?;
    }
    Ok(())
}

/// Adds the names that the ports of a header have in place of types (IEEE 1800-2017, 25.3).
pub(crate) fn add_header_names(header: &Header, found: &mut Vec<u32>) -> Result<(), NoMemory>
    ensures { OnOk result (found.new.items ≡ found.old.items ++ header_names header.now) }
{
    match &header.ports {
        Some(list) => in_ports(list.ports.as_slice(), found),
        None => Ok(()),
    }
}

/// Adds what a mention instantiates.
fn add_instantiated(mention: Mention, found: &mut Vec<u32>) -> Result<(), NoMemory>
    ensures { OnOk result (found.new.items ≡ found.old.items ++ instantiated mention) }
{
    match mention {
        Mention::Instance { definition } => {
            found.push(definition)?;
            Ok(())
        }
        Mention::EndLabel { .. } => Ok(()),
    }
}

/// Adds what mentions instantiate.
fn add_all_instantiated(mentions: &[Mention], found: &mut Vec<u32>) -> Result<(), NoMemory>
    ensures { OnOk result (found.new.items ≡ found.old.items ++ flat_map instantiated mentions.now) }
{
    for mention in mentions {
        add_instantiated(*mention, found)?;
    }
    Ok(())
}

/// The tokens at which the instantiations of an element name modules and interfaces, in the order of the text, also in generate blocks that
/// are never selected (IEEE 1800-2017, 23.3.2).
///
/// # Errors
/// For want of memory alone.
pub fn instantiations(alloc: Global, element: &Element) -> Result<Vec<u32>, NoMemory>
    ensures { IfOk result (λ found. found.items ≡ instantiations element.now) }
{
    let mut found = Vec::new(alloc);
    let mentioned = mentions(alloc, element)?;
    add_all_instantiated(&mentioned, &mut found)?;
    Ok(found)
}
