//! The parts of a session, as they are read.
ghost use Rattle.std.specs.Prelude.{◌≡◌, IfOk};
ghost use Rattle.serde_json.specs.View.{view, members_view};
ghost use Rattle.sve_script.specs.Session.{parts_from, parts_of};

use crate::clients::clients;
use crate::opening::files;
use serde_json::Value;
use std::alloc::Global;
use sve_bytes::{List, Name};
use sve_command::{Draft, shaped};
use sve_shape::{Object, Taken, fault_here, has_two};
use sve_text::Text;

/// The opening files and the clients' commands, whose limits are not tested yet.
#[derive(Drop)]
pub struct Parts {
    pub files: List<(Name, Text)>,
    pub clients: List<List<Draft>>,
}

/// The parts with these members.
fn parts_with(alloc: Global, members: &Object) -> Taken<Parts>
    ensures { IfOk result (λ shaped. shaped ≡ parts_from (members_view members.now.entries)) }
{
    if !has_two(members, "files", "clients") {
        return fault_here(alloc);
    }
    let files = shaped!(files(alloc, members)?);
    let clients = shaped!(clients(alloc, members)?);
    Ok(Ok(Parts { files, clients }))
}

/// The parts of the session that a value is.
pub fn parts_read(alloc: Global, value: &Value) -> Taken<Parts>
    ensures { IfOk result (λ shaped. shaped ≡ parts_of (view value.now)) }
{
    match value.as_object() {
        Some(members) => parts_with(alloc, members),
        None => fault_here(alloc),
    }
}
