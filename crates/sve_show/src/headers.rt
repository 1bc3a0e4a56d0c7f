//! Headers of modules and interfaces as text.
use crate::declarations::write_import;
use crate::types::{write_declarator, write_declared_type, write_typed_name, write_value};
use crate::writer::Writer;
use sve_tree::{Header, ParameterPort, ParameterPorts, Port, PortKind, PortType, Ports};

/// Writes a header, from behind its keyword to the semicolon.
pub fn write_header(w: &mut Writer<'_>, header: &Header) {
    w.said_before(&header.lifetime);
    w.token(header.name);
    for import in &header.imports {
        w.blank();
        write_import(w, import);
    }
    if let Some(parameters) = &header.parameters {
        w.blank();
        write_parameter_ports(w, parameters);
    }
    if let Some(ports) = &header.ports {
        w.blank();
        write_ports(w, ports);
    }
    w.token(header.semicolon)
}

fn write_parameter_ports(w: &mut Writer<'_>, ports: &ParameterPorts) {
    w.token(ports.hash);
    w.token(ports.opening);
    let row = &ports.parameters;
    for (number, port) in row.items.iter().enumerate() {
        w.separator(&row.separators, number);
        write_parameter_port(w, port);
    }
    w.token(ports.closing)
}

fn write_parameter_port(w: &mut Writer<'_>, port: &ParameterPort) {
    w.said_before(&port.keyword);
    write_typed_name(w, &port.parameter);
    write_value(w, &port.value)
}

fn write_ports(w: &mut Writer<'_>, ports: &Ports) {
    w.token(ports.opening);
    let row = &ports.ports;
    for (number, port) in row.items.iter().enumerate() {
        w.separator(&row.separators, number);
        write_port(w, port);
    }
    w.token(ports.closing)
}

fn write_port(w: &mut Writer<'_>, port: &Port) {
    w.said_before(&port.direction);
    if let Some(kind) = &port.kind {
        match kind {
            PortKind::Variable { keyword } => w.spelled(*keyword, "var"),
            PortKind::Net { net } => w.said(net),
        }
        w.blank();
    }
    write_port_type(w, &port.port_type);
    write_declarator(w, &port.declarator)
}

fn write_port_type(w: &mut Writer<'_>, port_type: &PortType) {
    match port_type {
        PortType::Data { data_type } => write_declared_type(w, data_type),
        PortType::Interface {
            interface,
            dot,
            modport,
        } => {
            w.add("<");
            w.token(*interface);
            w.token(*dot);
            w.token(*modport);
            w.add("> ")
        }
    }
}
