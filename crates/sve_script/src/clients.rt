//! Reading the commands of all clients.
ghost use Rattle.std.specs.Prelude.{◌≡◌, IfOk, codes};
ghost use Rattle.serde_json.specs.View.{items_view, members_view};
ghost use Rattle.sve_shape.specs.Shapes.{shaped_then, items_as, array_as, member_as};
ghost use Rattle.sve_command.specs.Commands.{command_of};
ghost use Rattle.sve_script.specs.Session.{some_items, clients_of};

use serde_json::Value;
use std::alloc::Global;
use sve_bytes::List;
use sve_command::{Draft, client};
use sve_shape::{Object, Taken, below_index, below_member, fault_at, fault_here, items_under};

/// The commands of each client, client 1 first.
fn clients_in(alloc: Global, items: &[Value]) -> Taken<List<List<Draft>>>
    ensures { IfOk result (λ shaped. shaped ≡ items_as (array_as command_of) 0 (items_view items.now)) }
{
    let mut clients = Vec::new(alloc);
    for (i, item) in items.iter().enumerate() {
        match client(alloc, item)? {
            Ok(client) => clients.push(client)?,
            Err(path) => return Ok(Err(below_index(alloc, i, path)?)),
        }
    }
    Ok(Ok(List::of(clients)))
}

/// The clients of a session, of which there is at least one.
fn some_clients(alloc: Global, items: &[Value]) -> Taken<List<List<Draft>>>
    ensures { IfOk result (λ shaped. shaped ≡ shaped_then (items_as (array_as command_of) 0) (some_items (items_view items.now))) }
{
    if items.is_empty() {
        return fault_here(alloc);
    }
    clients_in(alloc, items)
}

/// The clients under the key `clients`.
pub fn clients(alloc: Global, members: &Object) -> Taken<List<List<Draft>>>
    ensures { IfOk result (λ shaped. shaped ≡ member_as clients_of (codes "clients") (members_view members.now.entries)) }
{
    let Some(items) = items_under(members, "clients") else {
        return fault_at(alloc, "clients");
    };
    match some_clients(alloc, items)? {
        Ok(clients) => Ok(Ok(clients)),
        Err(path) => Ok(Err(below_member(alloc, "clients", path)?)),
    }
}
