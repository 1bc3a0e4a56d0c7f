//! Reading the commands of a client.
ghost use Rattle.std.specs.Prelude.{◌≡◌, IfOk};
ghost use Rattle.serde_json.specs.View.{view, items_view, members_view};
ghost use Rattle.sve_shape.specs.Shapes.{items_as, array_as};
ghost use Rattle.sve_command.specs.Commands.{commit_from, command_of};

use crate::asks::ask;
use crate::drafts::Draft;
use crate::edits::edits;
use serde_json::Value;
use std::alloc::Global;
use sve_bytes::List;
use sve_shape::{
    Object, Taken, below_index, below_member, fault_at, fault_here, has, has_only, items_under,
};

/// The command `{"commit": [edit, ..]}`.
fn commit(alloc: Global, members: &Object) -> Taken<Draft>
    ensures { IfOk result (λ shaped. shaped ≡ commit_from (members_view members.now.entries)) }
{
    let Some(items) = items_under(members, "commit") else {
        return fault_at(alloc, "commit");
    };
    match edits(alloc, items)? {
        Ok(edits) => Ok(Ok(Draft::commit(edits))),
        Err(path) => Ok(Err(below_member(alloc, "commit", path)?)),
    }
}

/// One command of a client.
fn command(alloc: Global, value: &Value) -> Taken<Draft>
    ensures { IfOk result (λ shaped. shaped ≡ command_of (view value.now)) }
{
    let Some(members) = value.as_object() else {
        return fault_here(alloc);
    };
    if has_only(members, "commit") {
        commit(alloc, members)
    } else if has(members, "ask") && !has(members, "commit") {
        ask(alloc, members)
    } else {
        fault_here(alloc)
    }
}

/// Commands, in their order.
fn commands(alloc: Global, items: &[Value]) -> Taken<List<Draft>>
    ensures { IfOk result (λ shaped. shaped ≡ items_as command_of 0 (items_view items.now)) }
{
    let mut commands = Vec::new(alloc);
    for (i, item) in items.iter().enumerate() {
        match command(alloc, item)? {
            Ok(command) => commands.push(command)?,
            Err(path) => return Ok(Err(below_index(alloc, i, path)?)),
        }
    }
    Ok(Ok(List::of(commands)))
}

/// The commands of one client, in their order.
///
/// # Errors
/// Only for want of memory; where the value is no array of commands, the path of its first fault is told.
pub fn client(alloc: Global, value: &Value) -> Taken<List<Draft>>
    ensures { IfOk result (λ shaped. shaped ≡ array_as command_of (view value.now)) }
{
    match value.as_array() {
        Some(items) => commands(alloc, items),
        None => fault_here(alloc),
    }
}
