//! What is found of a body, as lines.
use crate::things::{add_declared, add_given, add_names, add_path, add_shared, direction_name};
use std::alloc::Global;
use std::io;
use std::io::Write;
use sve_bytes::{Name, NoMemory};
use sve_diag::Note;
use sve_facts::{Body, BodyScope, Child, Facts, ImplicitNet, ParameterValue, Port};
use sve_row::{add_number, spell, write_line};
use sve_row_element::value_text;
use sve_scope::{Declared, FaceName};
use sve_spec::{FaceGiven, Given};

/// A declaration of a scope.
fn declared_line(alloc: Global, declared: &Declared) -> Result<String, NoMemory> {
    let mut out = String::from_str(alloc, "    ")?;
    add_declared(alloc, &mut out, declared)?;
    Ok(out)
}

/// A scope, by its path, of which that of the body itself has none.
fn scope_line(alloc: Global, scope: &BodyScope) -> Result<String, NoMemory> {
    let mut out = String::from_str(alloc, "  scope")?;
    if !scope.path.steps.items().is_empty() {
        out.push(' ')?;
        add_path(alloc, &mut out, &scope.path)?;
    }
    Ok(out)
}

/// A parameter that an instance may override.
fn parameter_line(alloc: Global, parameter: &ParameterValue) -> Result<String, NoMemory> {
    let mut out = String::from_str(alloc, "  param ")?;
    spell(&mut out, parameter.name.bytes())?;
    out.push(' ')?;
    add_shared(alloc, &mut out, &parameter.ty)?;
    out.push_str(" = ")?;
    value_text(alloc, &mut out, &parameter.value)?;
    Ok(out)
}

/// Adds an interface, and the modport through which it is given.
fn add_interface(
    out: &mut String,
    interface: &Name,
    modport: &Option<Name>,
) -> Result<(), NoMemory> {
    spell(out, interface.bytes())?;
    if let Some(modport) = modport {
        out.push('.')?;
        spell(out, modport.bytes())?;
    }
    Ok(())
}

/// An interface port.
fn face_line(alloc: Global, port: &Port, face: &FaceName) -> Result<String, NoMemory> {
    let mut out = String::from_str(alloc, "  port ")?;
    add_interface(&mut out, &face.interface, &face.modport)?;
    out.push(' ')?;
    spell(&mut out, port.name.bytes())?;
    Ok(out)
}

/// A port that is no interface port.
fn data_line(alloc: Global, port: &Port) -> Result<String, NoMemory> {
    let mut out = String::from_str(alloc, "  port ")?;
    out.push_str(direction_name(port.direction))?;
    out.push(' ')?;
    spell(&mut out, port.name.bytes())?;
    out.push_str(if port.net { " net " } else { " variable " })?;
    add_shared(alloc, &mut out, &port.ty)?;
    Ok(out)
}

/// A port.
fn port_line(alloc: Global, port: &Port) -> Result<String, NoMemory> {
    match &port.face {
        Some(face) => face_line(alloc, port, face),
        None => data_line(alloc, port),
    }
}

/// Adds what parameters are given.
fn add_all_given(alloc: Global, out: &mut String, given: &[Given]) -> Result<(), NoMemory> {
    let mut separator = "";
    for one in given {
        out.push_str(separator)?;
        add_given(alloc, out, one)?;
        separator = ", ";
    }
    Ok(())
}

/// Adds what interface ports are given.
fn add_faces(out: &mut String, faces: &[FaceGiven]) -> Result<(), NoMemory> {
    for given in faces {
        out.push_str(" .")?;
        spell(out, given.port.bytes())?;
        out.push('(')?;
        add_interface(out, &given.interface, &given.modport)?;
        out.push(')')?;
    }
    Ok(())
}

/// An instance.
fn child_line(alloc: Global, child: &Child) -> Result<String, NoMemory> {
    let mut out = String::from_str(alloc, "  child ")?;
    add_path(alloc, &mut out, &child.path)?;
    out.push(' ')?;
    spell(&mut out, child.spec.definition.bytes())?;
    out.push_str(" (")?;
    add_all_given(alloc, &mut out, child.spec.values.items())?;
    out.push(')')?;
    add_faces(&mut out, child.spec.faces.items())?;
    add_names(&mut out, " open", child.unconnected.items())?;
    Ok(out)
}

/// A net that its use declares.
fn net_line(alloc: Global, net: &ImplicitNet) -> Result<String, NoMemory> {
    let mut out = String::from_str(alloc, "  net ")?;
    if !net.scope.steps.items().is_empty() {
        add_path(alloc, &mut out, &net.scope)?;
        out.push('.')?;
    }
    spell(&mut out, net.name.bytes())?;
    Ok(out)
}

/// What is said, in the text of a chunk.
fn note_line(alloc: Global, chunk: u32, note: &Note) -> Result<String, NoMemory> {
    let mut out = String::from_str(alloc, "  note ")?;
    spell(&mut out, note.code.spelling())?;
    out.push(' ')?;
    if note.chunk != chunk {
        add_number(&mut out, note.chunk as usize)?;
        out.push(':')?;
    }
    add_number(&mut out, note.token as usize)?;
    if let Some(name) = &note.arg {
        out.push(' ')?;
        spell(&mut out, name.bytes())?;
    }
    Ok(out)
}

/// Writes a scope and what it declares.
fn write_scope<W: Write>(alloc: Global, out: &mut W, scope: &BodyScope) -> io::Result<()> {
    write_line(out, scope_line(alloc, scope)?.as_str())?;
    for place in 0..scope.scope.declared.len() {
        let line = declared_line(alloc, scope.scope.declared.at(place))?;
        write_line(out, line.as_str())?;
    }
    Ok(())
}

/// Writes the scopes of a body.
fn write_scopes<W: Write>(alloc: Global, out: &mut W, facts: &Facts) -> io::Result<()> {
    for scope in facts.scopes.items() {
        write_scope(alloc, out, scope)?;
    }
    Ok(())
}

/// Writes the parameters and the ports of a body.
fn write_header<W: Write>(alloc: Global, out: &mut W, facts: &Facts) -> io::Result<()> {
    for parameter in facts.params.items() {
        write_line(out, parameter_line(alloc, parameter)?.as_str())?;
    }
    for port in facts.ports.items() {
        write_line(out, port_line(alloc, port)?.as_str())?;
    }
    Ok(())
}

/// Writes the instances of a body, and the nets that uses declare in it.
fn write_children<W: Write>(alloc: Global, out: &mut W, facts: &Facts) -> io::Result<()> {
    for child in facts.children.items() {
        write_line(out, child_line(alloc, child)?.as_str())?;
    }
    for net in facts.nets.items() {
        write_line(out, net_line(alloc, net)?.as_str())?;
    }
    Ok(())
}

/// Writes what is said of a body in a chunk.
fn write_notes<W: Write>(alloc: Global, out: &mut W, facts: &Facts, chunk: u32) -> io::Result<()> {
    for note in facts.notes.items() {
        write_line(out, note_line(alloc, chunk, note)?.as_str())?;
    }
    Ok(())
}

/// What a body costs.
fn cost_line(alloc: Global, cost: u32) -> Result<String, NoMemory> {
    let mut out = String::from_str(alloc, "  cost ")?;
    add_number(&mut out, cost as usize)?;
    Ok(out)
}

/// Writes what is found of a body in a chunk.
fn write_facts<W: Write>(alloc: Global, out: &mut W, facts: &Facts, chunk: u32) -> io::Result<()> {
    write_scopes(alloc, out, facts)?;
    write_header(alloc, out, facts)?;
    write_children(alloc, out, facts)?;
    write_notes(alloc, out, facts, chunk)
}

/// Writes a body, whose text is a chunk.
pub fn write_body<W: Write>(alloc: Global, out: &mut W, body: &Body, chunk: u32) -> io::Result<()> {
    match body {
        Body::Over => write_line(out, "  over"),
        Body::Done { facts, cost } => {
            write_line(out, cost_line(alloc, *cost)?.as_str())?;
            write_facts(alloc, out, facts, chunk)
        }
    }
}
