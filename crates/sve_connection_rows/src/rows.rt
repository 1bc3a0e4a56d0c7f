use crate::around::names_of;
use crate::connections::connections_text;
use std::alloc::Global;
use sve_bytes::{Name, NoMemory};
use sve_facts::Port;
use sve_row::{Table, field, name_of};
use sve_row_ports::ports_of;

/// The rows of connections.
#[derive(Clone, Copy)]
pub struct Connections;

impl Table for Connections {
    fn answer(&self, alloc: Global, kind: &str, row: &str) -> Result<Option<String>, NoMemory> {
        match kind {
            "connect" => connect_row(alloc, row),
            _ => Ok(None),
        }
    }
}

/// The answer to a row.
fn connect_row(alloc: Global, row: &str) -> Result<Option<String>, NoMemory> {
    match name_of(alloc, b"table")? {
        Some(file) => connected_in(alloc, &file, row),
        None => Ok(None),
    }
}

/// The answer to a row, in this file.
fn connected_in(alloc: Global, file: &Name, row: &str) -> Result<Option<String>, NoMemory> {
    let (module, rest) = field(row);
    match ports_of(alloc, file, module)? {
        Some(listing) => connected_to(alloc, file, listing.ports.items(), rest),
        None => Ok(None),
    }
}

/// What becomes of ports by the names and the arguments of a row.
fn connected_to(
    alloc: Global,
    file: &Name,
    ports: &[Port],
    rest: &str,
) -> Result<Option<String>, NoMemory> {
    let (text, arguments) = field(rest);
    let names = names_of(alloc, file, text)?;
    connections_text(alloc, ports, &names, arguments)
}
