//! The limits of a session.
ghost use Rattle.std.specs.Prelude.{◌≡◌, Ok, Some, IfOk, length, sum_by};
ghost use Rattle.sve_command.specs.Sizes.{edit_count, bad_budget_of};
ghost use Rattle.sve_script.specs.Limits.{above, first_of, long_file, large_commit, first_bad_budget, limit_of};
ghost use Rattle.sve_script.specs.declared.sessions.TheConstants.{MAX_EDITS};

use crate::sessions::{MAX_CLIENTS, MAX_COMMANDS, MAX_EDITS, Which};
use std::alloc::AllocError;
use sve_bytes::{List, Name};
use sve_command::Draft;
use sve_text::{MAX_FILE_LEN, MAX_FILES, Text};

/// A limit that a session is beyond.
#[derive(Clone, Copy)]
pub struct Beyond {
    pub which: Which,
    pub number: u64,
}

/// The number, where it is above the limit.
fn above(most: usize, number: usize) -> Option<u64>
    ensures { result ≡ above most number }
{
    if number > most {
        Some(number as u64)
    } else {
        None
    }
}

/// The length of the first text that is too long.
fn long_file(files: &[(Name, Text)]) -> Option<u64>
    ensures { result ≡ long_file files.now }
{
    for file in files {
        if let Some(number) = above(MAX_FILE_LEN, file.1.len()) {
            return Some(number);
        }
    }
    None
}

/// How many commands the clients have together. There is no memory for more than a `u64` counts.
fn count_commands(clients: &[List<Draft>]) -> Result<u64, AllocError>
    ensures { IfOk result (λ count. count ≡ sum_by length clients.now) }
{
    let mut count: u64 = 0;
    for client in clients {
        let Some(sum) = count.checked_add(client.items().len() as u64) else {
            return Err(AllocError);
        };
        count = sum;
    }
    Ok(count)
}

/// The number of edits of the client's first commit that has too many.
fn large_commit_of(commands: &[Draft]) -> Option<u64>
    ensures { result ≡ first_of (λ command. above MAX_EDITS (edit_count command)) commands.now }
{
    for command in commands {
        if let Some(number) = above(MAX_EDITS, command.edit_count()) {
            return Some(number);
        }
    }
    None
}

/// The number of edits of the first commit that has too many.
fn large_commit(clients: &[List<Draft>]) -> Option<u64>
    ensures { result ≡ large_commit clients.now }
{
    for client in clients {
        if let Some(number) = large_commit_of(client.items()) {
            return Some(number);
        }
    }
    None
}

/// The client's first budget that no ask may have.
fn bad_budget_in(commands: &[Draft]) -> Option<u64>
    ensures { result ≡ first_of bad_budget_of commands.now }
{
    for command in commands {
        if let Some(number) = command.bad_budget() {
            return Some(number);
        }
    }
    None
}

/// The first budget that no ask may have.
fn first_bad_budget(clients: &[List<Draft>]) -> Option<u64>
    ensures { result ≡ first_bad_budget clients.now }
{
    for client in clients {
        if let Some(number) = bad_budget_in(client.items()) {
            return Some(number);
        }
    }
    None
}

/// This limit, and how far a session is beyond it.
fn told(which: Which, number: u64) -> Result<Option<Beyond>, AllocError>
    ensures { result ≡ Ok (Some (record { which = which; number = number })) }
{
    Ok(Some(Beyond { which, number }))
}

/// The first limit that a session of these opening files and clients is beyond.
///
/// # Errors
/// Only for want of memory.
pub fn limit(files: &[(Name, Text)], clients: &[List<Draft>]) -> Result<Option<Beyond>, AllocError>
    ensures { IfOk result (λ limit. limit ≡ limit_of files.now clients.now) }
{
    if let Some(number) = above(MAX_FILES, files.len()) {
        return told(Which::Files, number);
    }
    if let Some(number) = long_file(files) {
        return told(Which::Bytes, number);
    }
    if let Some(number) = above(MAX_CLIENTS, clients.len()) {
        return told(Which::Clients, number);
    }
    let commands = count_commands(clients)?;
    if commands > MAX_COMMANDS as u64 {
        return told(Which::Commands, commands);
    }
    if let Some(number) = large_commit(clients) {
        return told(Which::Edits, number);
    }
    match first_bad_budget(clients) {
        Some(number) => told(Which::Budget, number),
        None => Ok(None),
    }
}
