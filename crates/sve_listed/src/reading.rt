//! Bodies as rows write them: `NAME COST ITEM ..`, the body of a module whose text is chunk 0 of the file `NAME`. Each item is a word,
//! and the token of its name is its number among them, from 1.
//!
//! - `PATH:NAME`: an instance at this path of this module; `PATH:NAME!PORT!PORT`: one whose ports of these names are connected to
//!   nothing.
//! - `+PATH`: a generate block at this path.
//! - `#NAME=VALUE`: a parameter with this value; a string is written `#NAME="BYTES"`.
//! - `>NAME:TYPE`, `<NAME:TYPE`, `*NAME:TYPE`: an input, an output, an inout of this type.
//! - `&NAME:INTERFACE` or `&NAME:INTERFACE.MODPORT`: an interface port.
//! - `=PATH:TYPE`: a variable of this type that is declared at this path; `=PATH:instance`: an instance that is declared and no more.
//! - `^NAME`: a name of the package `p` that is imported into the scope of the module.
//!
//! Instances and generate blocks are declared by the last name of their paths in the scope around them, where the body has this scope.
use crate::bodies::{Entry, Listed};
use crate::declared::{Thing, declare_all, spot};
use crate::things::{Unread, name, path, value};
use crate::types::type_of;
use std::alloc::Global;
use std::sync::Arc;
use sve_bytes::{Dir, List, Name, NoMemory, Path};
use sve_facts::{BodyScope, Child, Facts, ParameterValue, Port};
use sve_row::{fields_of, offset_of, words_of};
use sve_scope::{Explicit, FaceName, Scope, SharedType, What};
use sve_spec::Spec;

/// What was read of a body.
#[derive(Drop)]
struct Parts {
    scopes: Vec<BodyScope>,
    things: Vec<Thing>,
    params: Vec<ParameterValue>,
    ports: Vec<Port>,
    children: Vec<Child>,
}

/// The scope of the text of a module, for a part of its body at this path.
fn scope(alloc: Global, module: &Name, path: Path) -> Result<BodyScope, Unread> {
    Ok(BodyScope {
        path,
        scope: Scope::new(alloc, module.copy()?, 0),
    })
}

/// The type that a word writes.
fn shared_type(alloc: Global, word: &str) -> Result<SharedType, Unread> {
    type_of(alloc, word)?.ok_or(Unread::NoForm)
}

/// The names of ports, which `!` parts.
fn port_names(alloc: Global, word: &str) -> Result<Vec<Name>, Unread> {
    let mut names = Vec::new(alloc);
    for one in word.split('!') {
        names.push(name(alloc, one)?)?;
    }
    Ok(names)
}

/// An instance of the module that a word names, with the names of its ports that are connected to nothing behind that.
fn child(alloc: Global, at: &str, written: &str, token: u32) -> Result<Child, Unread> {
    let (module, unconnected) = match written.split_once("!") {
        Some((module, ports)) => (module, port_names(alloc, ports)?),
        None => (written, Vec::new(alloc)),
    };
    Ok(Child {
        path: path(alloc, at)?,
        spec: Spec {
            definition: name(alloc, module)?,
            values: List::of(Vec::new(alloc)),
            faces: List::of(Vec::new(alloc)),
        },
        token,
        unconnected: List::of(unconnected),
    })
}

/// A parameter.
fn param(alloc: Global, word: &str) -> Result<ParameterValue, Unread> {
    let (called, written) = word.split_once("=").ok_or(Unread::NoForm)?;
    Ok(ParameterValue {
        name: name(alloc, called)?,
        ty: shared_type(alloc, "int")?,
        value: value(alloc, written)?,
    })
}

/// A port of a direction.
fn data_port(alloc: Global, direction: Dir, word: &str, token: u32) -> Result<Port, Unread> {
    let (called, ty) = word.split_once(":").ok_or(Unread::NoForm)?;
    Ok(Port {
        name: name(alloc, called)?,
        direction,
        net: true,
        ty: shared_type(alloc, ty)?,
        face: None,
        token,
    })
}

/// The interface that a word writes, and perhaps a modport.
fn face(alloc: Global, word: &str) -> Result<FaceName, Unread> {
    match word.split_once(".") {
        Some((interface, modport)) => Ok(FaceName {
            interface: name(alloc, interface)?,
            modport: Some(name(alloc, modport)?),
        }),
        None => Ok(FaceName {
            interface: name(alloc, word)?,
            modport: None,
        }),
    }
}

/// An interface port.
fn face_port(alloc: Global, word: &str, token: u32) -> Result<Port, Unread> {
    let (called, written) = word.split_once(":").ok_or(Unread::NoForm)?;
    Ok(Port {
        name: name(alloc, called)?,
        direction: Dir::Inout,
        net: true,
        ty: shared_type(alloc, "logic")?,
        face: Some(face(alloc, written)?),
        token,
    })
}

/// The direction that the mark in front of a port says, and what stands behind the mark.
fn directed(word: &str) -> Option<(Dir, &str)> {
    if let Some(rest) = word.strip_prefix(">") {
        return Some((Dir::Input, rest));
    }
    if let Some(rest) = word.strip_prefix("<") {
        return Some((Dir::Output, rest));
    }
    match word.strip_prefix("*") {
        Some(rest) => Some((Dir::Inout, rest)),
        None => None,
    }
}

/// Notes what is declared at the path that a word writes.
fn note(alloc: Global, parts: &mut Parts, at: &str, what: What, token: u32) -> Result<(), Unread> {
    let path = path(alloc, at)?;
    parts.things.push(Thing { path, what, token })?;
    Ok(())
}

/// Notes what a word declares.
fn note_thing(alloc: Global, parts: &mut Parts, word: &str, token: u32) -> Result<(), Unread> {
    let (at, written) = word.split_once(":").ok_or(Unread::NoForm)?;
    let what = if written == "instance" {
        What::Instance
    } else {
        What::Variable(shared_type(alloc, written)?)
    };
    note(alloc, parts, at, what, token)
}

/// Imports a name of the package `p` into the scope of a module.
fn import(
    alloc: Global,
    parts: &mut Parts,
    module: &Name,
    word: &str,
    token: u32,
) -> Result<(), Unread> {
    let import = Explicit {
        name: name(alloc, word)?,
        from: name(alloc, "p")?,
        at: spot(module, token)?,
    };
    if let Some(own) = parts.scopes.first_mut() {
        own.scope.import_name(import)?;
    }
    Ok(())
}

/// Adds what a word with a mark in front writes; whether it has one.
fn is_marked(
    alloc: Global,
    parts: &mut Parts,
    module: &Name,
    word: &str,
    token: u32,
) -> Result<bool, Unread> {
    if let Some(at) = word.strip_prefix("+") {
        let block = scope(alloc, module, path(alloc, at)?)?;
        parts.scopes.push(block)?;
        note(alloc, parts, at, What::Block, token)?;
        return Ok(true);
    }
    if let Some(rest) = word.strip_prefix("=") {
        note_thing(alloc, parts, rest, token)?;
        return Ok(true);
    }
    if let Some(rest) = word.strip_prefix("^") {
        import(alloc, parts, module, rest, token)?;
        return Ok(true);
    }
    if let Some(rest) = word.strip_prefix("#") {
        parts.params.push(param(alloc, rest)?)?;
        return Ok(true);
    }
    if let Some(rest) = word.strip_prefix("&") {
        parts.ports.push(face_port(alloc, rest, token)?)?;
        return Ok(true);
    }
    if let Some((direction, rest)) = directed(word) {
        parts.ports.push(data_port(alloc, direction, rest, token)?)?;
        return Ok(true);
    }
    Ok(false)
}

/// Adds what a word writes.
fn add(
    alloc: Global,
    parts: &mut Parts,
    module: &Name,
    word: &str,
    token: u32,
) -> Result<(), Unread> {
    if is_marked(alloc, parts, module, word, token)? {
        return Ok(());
    }
    let (at, called) = word.split_once(":").ok_or(Unread::NoForm)?;
    parts.children.push(child(alloc, at, called, token)?)?;
    note(alloc, parts, at, What::Instance, token)
}

/// What the words of a body write.
fn facts(alloc: Global, module: &Name, words: &[&str]) -> Result<Facts, Unread> {
    let own = scope(
        alloc,
        module,
        Path {
            steps: List::of(Vec::new(alloc)),
        },
    )?;
    let mut parts = Parts {
        scopes: vec![in alloc; own]?,
        things: Vec::new(alloc),
        params: Vec::new(alloc),
        ports: Vec::new(alloc),
        children: Vec::new(alloc),
    };
    let mut token = 0u32;
    for word in words {
        token = token.saturating_add(1);
        add(alloc, &mut parts, module, word, token)?;
    }
    Ok(facts_of(alloc, module, parts)?)
}

/// What was read of a body.
fn facts_of(alloc: Global, module: &Name, parts: Parts) -> Result<Facts, NoMemory> {
    let Parts {
        mut scopes,
        things,
        params,
        ports,
        children,
    } = parts;
    declare_all(module, &mut scopes, things)?;
    Ok(Facts {
        scopes: List::of(scopes),
        params: List::of(params),
        ports: List::of(ports),
        children: List::of(children),
        hierarchical: List::of(Vec::new(alloc)),
        nets: List::of(Vec::new(alloc)),
        notes: List::of(Vec::new(alloc)),
    })
}

/// The body that a field writes.
pub fn entry(alloc: Global, field: &str) -> Result<Entry, Unread> {
    let words = words_of(alloc, field)?;
    let [called, cost, items @ ..] = words.as_slice() else {
        return Err(Unread::NoForm);
    };
    let name = name(alloc, called)?;
    let facts = facts(alloc, &name, items)?;
    Ok(Entry {
        name,
        cost: offset_of(cost).ok_or(Unread::NoForm)?,
        facts: Arc::new(alloc, facts)?,
    })
}

/// The names that a field writes.
fn names(alloc: Global, field: &str) -> Result<Vec<Name>, Unread> {
    let mut names = Vec::new(alloc);
    for word in &words_of(alloc, field)? {
        names.push(name(alloc, word)?)?;
    }
    Ok(names)
}

/// The bodies that fields write.
fn entries(alloc: Global, fields: &[&str]) -> Result<Vec<Entry>, Unread> {
    let mut entries = Vec::new(alloc);
    for field in fields {
        entries.push(entry(alloc, field)?)?;
    }
    Ok(entries)
}

/// The tops that the first field writes, and the bodies that the others do. Where there is no field there is nothing.
fn listed(alloc: Global, fields: &[&str]) -> Result<Listed, Unread> {
    let (tops, bodies) = match fields.split_first() {
        Some((first, others)) => (*first, others),
        None => ("", fields),
    };
    Ok(Listed {
        tops: names(alloc, tops)?,
        entries: entries(alloc, bodies)?,
        asked: String::new(alloc),
    })
}

/// The first field of a row, and the tops and bodies that the others write.
pub fn parted<'a>(alloc: Global, row: &'a str) -> Result<(&'a str, Listed), Unread> {
    let fields = fields_of(alloc, row)?;
    match fields.as_slice().split_first() {
        Some((first, others)) => Ok((first, listed(alloc, others)?)),
        None => Err(Unread::NoForm),
    }
}
