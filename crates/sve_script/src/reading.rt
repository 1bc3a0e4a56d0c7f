//! Reading a session.
ghost use Rattle.std.specs.Prelude.{◌≡◌, ℕ, List, All, None, IfOk, IsErrOf};
ghost use Rattle.serde_json.specs.View.{view};
ghost use Rattle.sve_text.specs.Files.{HaveDistinctNames, opening_files};
ghost use Rattle.sve_command.specs.Sizes.{HasFairBudget};
ghost use Rattle.sve_script.specs.declared.sessions.Which.{Which};
ghost use Rattle.sve_script.specs.Limits.{AreInLimits, limit_of};
ghost use Rattle.sve_script.specs.Session.{within, session_of, IsSession, IsMisshapen, IsBeyondLimit, IsNotJson};

use crate::limits::{Beyond, limit};
use crate::parts::{Parts, parts_read};
use crate::sessions::{BadSession, Script};
use serde_json::Value;
use std::alloc::{AllocError, Global};
use sve_bytes::List;
use sve_command::{Command, Draft};
use sve_text::Files;

/// The commands of one client, whose budgets are those that an ask may have.
fn settled_client(alloc: Global, drafts: List<Draft>) -> Result<List<Command>, AllocError>
    requires { All HasFairBudget drafts }
    ensures { IfOk result (λ commands. commands ≡ drafts) }
{
    let mut commands = Vec::new(alloc);
    for draft in drafts.into_vec() {
        commands.push(draft.settled())?;
    }
    Ok(List::of(commands))
}

/// The commands of each client, whose budgets are those that an ask may have.
fn settled_clients(
    alloc: Global,
    drafts: List<List<Draft>>,
) -> Result<List<List<Command>>, AllocError>
    requires { All (All HasFairBudget) drafts }
    ensures { IfOk result (λ clients. clients ≡ drafts) }
{
    let mut clients = Vec::new(alloc);
    for client in drafts.into_vec() {
        clients.push(settled_client(alloc, client)?)?;
    }
    Ok(List::of(clients))
}

/// A session, or why a value is none.
type Read = Result<Result<Script, BadSession>, AllocError>;

/// The session of these parts, which are in their limits.
fn made(alloc: Global, parts: Parts) -> Result<Script, AllocError>
    requires distinct_names { HaveDistinctNames parts.files }
    requires limits_kept { limit_of parts.files parts.clients ≡ None }
    ensures { IfOk result (λ script. script ≡ record { files = opening_files parts.files; clients = parts.clients }) }
{
    let clients = settled_clients(alloc, parts.clients)?;
    let files = Files::of(alloc, parts.files.into_vec())?;
    Ok(Script { files, clients })
}

/// The session of these parts, where they are in their limits.
fn settled(alloc: Global, parts: Parts) -> Read
    requires { HaveDistinctNames parts.files }
    ensures { IfOk result (λ read. read ≡ within parts (limit_of parts.files parts.clients)) }
{
    match limit(parts.files.items(), parts.clients.items())? {
        Some(Beyond { which, number }) => Ok(Err(BadSession::Limit { which, number })),
        None => Ok(Ok(made(alloc, parts)?)),
    }
}

/// The session that a value is.
fn session(alloc: Global, value: &Value) -> Read
    ensures { IfOk result (λ read. read ≡ session_of (view value.now)) }
{
    match parts_read(alloc, value)? {
        Ok(parts) => settled(alloc, parts),
        Err(path) => Ok(Err(BadSession::Shape { path })),
    }
}

/// Reads a session.
///
/// # Errors
/// `NotJson` where the bytes are no JSON, `Shape` where they are JSON and not of the form of a session, `Limit` where they
/// are of the form and beyond a limit.
pub fn script(alloc: Global, bytes: &[u8]) -> Result<Script, BadSession>
    ensures session { IfOk result (IsSession bytes.now) }
    ensures limits_kept { IfOk result (λ script. AreInLimits script.clients) }
    ensures shape { (path : List ℕ) → IsErrOf result (BadSession.Shape path) → IsMisshapen bytes.now path }
    ensures limit { (which : Which) → (number : ℕ) → IsErrOf result (BadSession.Limit which number) → IsBeyondLimit bytes.now which number }
    ensures not_json { IsErrOf result BadSession.NotJson → IsNotJson bytes.now }
{
    let value = match Value::from_slice(alloc, bytes) {
        Ok(value) => value,
        Err(error) if error.is_memory() => return Err(BadSession::NoMemory),
        Err(_) => return Err(BadSession::NotJson),
    };
    match session(alloc, &value) {
        Ok(read) => read,
        Err(AllocError) => Err(BadSession::NoMemory),
    }
}
