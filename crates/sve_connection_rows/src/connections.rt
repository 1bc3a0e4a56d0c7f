//! How an instance connects ports, as text.
use crate::around::Names;
use std::alloc::Global;
use sve_around::Surroundings;
use sve_bytes::{Name, NoMemory};
use sve_connect::{Connected, Net, Pair, connect};
use sve_facts::Port;
use sve_row::{add_number, spell};
use sve_row_element::{element_of, notes_text};
use sve_scope::Enclosing;
use sve_tree::{ArgumentList, Element, Item, Word};

/// The module with an instance of these arguments.
fn instance_of(alloc: Global, arguments: &str) -> Result<Option<Element>, NoMemory> {
    let mut text = String::from_str(alloc, "module t; u i (")?;
    text.push_str(arguments)?;
    text.push_str("); endmodule")?;
    element_of(alloc, text.as_bytes())
}

/// The connections of the first instance of a module.
fn arguments_in(tree: &Element) -> Option<&ArgumentList> {
    match tree.definition()?.items.get(0)? {
        Item::Instances { instantiation } => {
            Some(&instantiation.instances.items.get(0)?.connections)
        }
        _ => None,
    }
}

/// Adds a port and the argument that connects it, by their places.
fn pair_text(out: &mut String, pair: Pair) -> Result<(), NoMemory> {
    add_number(out, pair.port)?;
    out.push('-')?;
    add_number(out, pair.argument)?;
    out.push(' ')
}

/// Adds the ports that are connected.
fn pairs_text(out: &mut String, pairs: &[Pair]) -> Result<(), NoMemory> {
    for pair in pairs {
        pair_text(out, *pair)?;
    }
    Ok(())
}

/// Adds the ports that are connected to nothing.
fn open_text(out: &mut String, names: &[Name]) -> Result<(), NoMemory> {
    out.push_str("open")?;
    for name in names {
        out.push(' ')?;
        spell(out, name.bytes())?;
    }
    Ok(())
}

/// Adds a use of a name that declares a net.
fn net_text(out: &mut String, net: &Net) -> Result<(), NoMemory> {
    out.push(' ')?;
    spell(out, net.name.bytes())?;
    out.push('@')?;
    add_number(out, net.token as usize)
}

/// Adds the uses of names that declare nets.
fn nets_text(out: &mut String, nets: &[Net]) -> Result<(), NoMemory> {
    out.push_str(" nets")?;
    for net in nets {
        net_text(out, net)?;
    }
    Ok(())
}

/// Adds how ports are connected.
fn connected_text(out: &mut String, connected: &Connected) -> Result<(), NoMemory> {
    pairs_text(out, connected.pairs.items())?;
    open_text(out, connected.unconnected.items())?;
    nets_text(out, connected.nets.items())?;
    notes_text(out, connected.notes.items())
}

/// How ports are connected, as text.
fn text_of(alloc: Global, connected: &Connected) -> Result<String, NoMemory> {
    let mut out = String::new(alloc);
    connected_text(&mut out, connected)?;
    Ok(out)
}

/// How arguments connect ports, where these names are around them.
fn connected_beside(
    alloc: Global,
    ports: &[Port],
    list: &ArgumentList,
    words: &[Word],
    names: &Names,
) -> Result<String, NoMemory> {
    let scope = &names.scope;
    let outer = Enclosing::new(alloc);
    let around = Surroundings {
        alloc,
        file: &scope.file,
        chunk: 0,
        words,
        scope,
        around: &outer,
        packages: &names.packages,
        at: 4,
        instances: &names.faces,
    };
    let connected = connect(alloc, ports, list, &around, 4)?;
    text_of(alloc, &connected)
}

/// How the first instance of a module connects ports among names, where it has one.
fn instance_text(
    alloc: Global,
    ports: &[Port],
    tree: &Element,
    names: &Names,
) -> Result<Option<String>, NoMemory> {
    match arguments_in(tree) {
        Some(list) => {
            let words = tree.words.as_slice();
            Ok(Some(connected_beside(alloc, ports, list, words, names)?))
        }
        None => Ok(None),
    }
}

/// How an instance of these arguments connects ports among names; nothing where they are no arguments.
pub fn connections_text(
    alloc: Global,
    ports: &[Port],
    names: &Names,
    arguments: &str,
) -> Result<Option<String>, NoMemory> {
    match instance_of(alloc, arguments)? {
        Some(tree) => instance_text(alloc, ports, &tree, names),
        None => Ok(None),
    }
}
