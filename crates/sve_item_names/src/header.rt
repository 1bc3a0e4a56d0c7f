ghost use Rattle.std.specs.Prelude.{◌≡◌, ◌++◌, IfOk, OnOk};
ghost use Rattle.std.specs.List.{flat_map};
ghost use Rattle.sve_item_names.specs.Declarations.{header_headings, parameter_port_headings, parameters_of, port_headings, port_type_headings, ports_of};

use crate::declaration::add_name;
use std::alloc::Global;
use sve_bytes::NoMemory;
use sve_heading::{Heading, in_declared_type};
use sve_tree::{Header, ParameterPort, Port, PortType};

/// Adds the names that a parameter of a header declares.
fn in_parameter(port: &ParameterPort, found: &mut Vec<Heading>) -> Result<(), NoMemory>
    ensures { OnOk result (found.new.items ≡ found.old.items ++ parameter_port_headings port.now) }
{
    in_declared_type(&port.parameter.data_type, found)?;
    add_name(port.name(), found)
}

/// Adds the names that parameters of a header declare.
fn in_parameters(ports: &[ParameterPort], found: &mut Vec<Heading>) -> Result<(), NoMemory>
    ensures { OnOk result (found.new.items ≡ found.old.items ++ flat_map parameter_port_headings ports.now) }
{
    for port in ports {
        in_parameter(port, found)?;
    }
    Ok(())
}

/// Adds the names that the type of a port declares.
fn in_port_type(port_type: &PortType, found: &mut Vec<Heading>) -> Result<(), NoMemory>
    ensures { OnOk result (found.new.items ≡ found.old.items ++ port_type_headings port_type.now) }
{
    match port_type {
        PortType::Data { data_type } => in_declared_type(data_type, found),
        PortType::Interface { .. } => Ok(()),
    }
}

/// Adds the names that a port declares.
fn in_port(port: &Port, found: &mut Vec<Heading>) -> Result<(), NoMemory>
    ensures { OnOk result (found.new.items ≡ found.old.items ++ port_headings port.now) }
{
    in_port_type(&port.port_type, found)?;
    add_name(port.name(), found)
}

/// Adds the names that ports declare.
fn in_ports(ports: &[Port], found: &mut Vec<Heading>) -> Result<(), NoMemory>
    ensures { OnOk result (found.new.items ≡ found.old.items ++ flat_map port_headings ports.now) }
{
    for port in ports {
        in_port(port, found)?;
    }
    Ok(())
}

/// Adds the names of the parameters that a header has.
fn add_parameters(header: &Header, found: &mut Vec<Heading>) -> Result<(), NoMemory>
    ensures { OnOk result (found.new.items ≡ found.old.items ++ flat_map parameter_port_headings (parameters_of header.now.parameters)) }
{
    match &header.parameters {
        Some(list) => in_parameters(list.parameters.as_slice(), found),
        None => Ok(()),
    }
}

/// Adds the names of the ports that a header has.
fn add_ports(header: &Header, found: &mut Vec<Heading>) -> Result<(), NoMemory>
    ensures { OnOk result (found.new.items ≡ found.old.items ++ flat_map port_headings (ports_of header.now.ports)) }
{
    match &header.ports {
        Some(list) => in_ports(list.ports.as_slice(), found),
        None => Ok(()),
    }
}

/// The names that the header of a module or an interface declares, in the order of the text (IEEE 1800-2017, 23.2): parameters and
/// ports, and the names of enumerations in their types. It goes over the header once.
///
/// # Errors
/// For want of memory alone.
pub fn header_names(alloc: Global, header: &Header) -> Result<Vec<Heading>, NoMemory>
    ensures { IfOk result (λ found. found.items ≡ header_headings header.now) }
{
    let mut found = Vec::new(alloc);
    add_parameters(header, &mut found)?;
    add_ports(header, &mut found)?;
    Ok(found)
}
