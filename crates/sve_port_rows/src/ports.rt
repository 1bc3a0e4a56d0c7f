//! Rows of ports.
ghost use Rattle.sve_fault.specs.Counts.{IsFuel};

use std::alloc::Global;
use sve_bytes::{Dir, Name, NoMemory};
use sve_facts::Port;
use sve_fault::{Fuel, Halted};
use sve_given::{Scope, entries};
use sve_port::Listing;
use sve_row::{Table, field, name_of, spell};
use sve_row_element::{counted, element_of, end_text, separate};
use sve_row_ports::listing_of;
use sve_scope::FaceName;
use sve_tree::Element;
use sve_types::print;

/// The rows of ports.
#[derive(Clone, Copy)]
pub struct Ports;

impl Table for Ports {
    fn answer(&self, alloc: Global, kind: &str, row: &str) -> Result<Option<String>, NoMemory> {
        match kind {
            "ports" => ports_row(alloc, row),
            _ => Ok(None),
        }
    }
}

/// Adds an interface, and the modport.
fn face_text(out: &mut String, face: &FaceName) -> Result<(), NoMemory> {
    spell(out, face.interface.bytes())?;
    if let Some(modport) = &face.modport {
        out.push('.')?;
        spell(out, modport.bytes())?;
    }
    Ok(())
}

/// The direction and the kind of a port that is no interface port.
fn manner_text(direction: Dir, net: bool) -> &'static str {
    match (direction, net) {
        (Dir::Input, true) => "input net ",
        (Dir::Input, false) => "input var ",
        (Dir::Output, true) => "output net ",
        (Dir::Output, false) => "output var ",
        (Dir::Inout, true) => "inout net ",
        (Dir::Inout, false) => "inout var ",
    }
}

/// Adds a port.
fn port_text(alloc: Global, out: &mut String, port: &Port) -> Result<(), NoMemory> {
    match &port.face {
        Some(face) => face_text(out, face)?,
        None => {
            out.push_str(manner_text(port.direction, port.net))?;
            spell(out, print(alloc, port.ty.ty())?.as_slice())?;
        }
    }
    out.push(' ')?;
    spell(out, port.name.bytes())
}

/// The ports, and what is said.
fn listing_text(alloc: Global, listing: &Listing) -> Result<String, NoMemory> {
    let mut out = String::new(alloc);
    for port in listing.ports.items() {
        separate(&mut out, ", ")?;
        port_text(alloc, &mut out, port)?;
    }
    end_text(&mut out, listing.notes.items())?;
    Ok(out)
}

/// What the ports of an element come to among names.
fn listed_text(
    alloc: Global,
    tree: &Element,
    scope: &Scope,
    fuel: &mut Fuel,
) -> Result<Option<String>, Halted>
    requires { IsFuel fuel.old }
{
    match listing_of(alloc, tree, scope, fuel)? {
        Some(listing) => Ok(Some(listing_text(alloc, &listing)?)),
        None => Ok(None),
    }
}

/// The ports of an element, with the names and the most behind it.
fn element_ports(
    alloc: Global,
    file: &Name,
    tree: &Element,
    rest: &str,
) -> Result<Option<String>, NoMemory> {
    let (names, most) = field(rest);
    let names = entries(alloc, names)?;
    let scope = Scope {
        alloc,
        file,
        words: tree.words.as_slice(),
        names: names.as_slice(),
    };
    let mut fuel = Fuel {
        used: 0,
        most: most_of(most),
    };
    let text = listed_text(alloc, tree, &scope, &mut fuel);
    counted(alloc, text, fuel.used)
}

/// The number of nodes that a field says, and as many as there can be where it says none.
fn most_of(text: &str) -> u64 {
    text.trim().parse::<u64>().unwrap_or(u64::MAX)
}

/// The answer to a row in this file.
fn ports_in(alloc: Global, file: &Name, row: &str) -> Result<Option<String>, NoMemory> {
    let (module, rest) = field(row);
    match element_of(alloc, module.as_bytes())? {
        Some(tree) => element_ports(alloc, file, &tree, rest),
        None => Ok(None),
    }
}

/// The answer to a row.
fn ports_row(alloc: Global, row: &str) -> Result<Option<String>, NoMemory> {
    match name_of(alloc, b"table")? {
        Some(file) => ports_in(alloc, &file, row),
        None => Ok(None),
    }
}
