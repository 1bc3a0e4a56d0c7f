//! All clients of a script, from the opening of their session to its end.
ghost use Rattle.std.specs.Prelude.{◌≡◌, ◌<◌, ◌≤◌, ◌^◌, ℕ, Some, Err, length, slice_get, sum_by, IfOk};
ghost use Rattle.sve_history.specs.Histories.{IsOpening};
ghost use Rattle.sve_runner.specs.Honest.{history_by, told_entries, AreHonest};
ghost use Rattle.sve_runner.specs.Told.{answers_by, AreFew, all_told, records_told, counts_told};

use crate::gate::Gate;
use crate::script_client::ScriptClient;
use crate::stop::Stop;
use crate::terms::Terms;
use crate::told::Told;
use std::alloc::{AllocError, Global};
use std::sync::Wait;
use std::thread::Threads;
use sve_bytes::{List, NoMemory};
use sve_clients::{Ended, run_clients};
use sve_command::{Command, Query};
use sve_history::History;
use sve_report::{Entry, Record};
use sve_store::Start;
use sve_text::Files;

/// A history, the records of each client, client 1 first, and beside each record how many values its command computed.
#[derive(Drop)]
pub struct Ran {
    pub history: History,
    pub records: List<List<Record>>,
    pub counts: List<List<u64>>,
}

/// Runs the 1 to 16 clients of a script over a session with these opening files, which no commit has touched. They have
/// fewer than 2^32 commands together, with fewer than 2^32 edits each, and so many entries the history may have: none of
/// them is ever told that it is full. Asks are answered by the kinds `K`. Every thread is joined. It may wait.
///
/// # Errors
/// Only for want of memory.
pub fn run_script<K, G, R>(
    rt: &R,
    alloc: Global,
    files: Files,
    clients: &[List<Command>],
    terms: Terms,
    gate: &G,
) -> Result<Ran, NoMemory>
where
    K: Start<Query = Query> + Send + Sync,
    K::Key: Send + Sync,
    K::Value: Send + Sync,
    G: Gate + Sync,
    R: Threads + Wait + Sync,
    requires clients { (0 < length clients.now) × (length clients.now ≤ 16) }
    requires few { AreFew clients.now }
    requires opening { IsOpening files }
    ensures history { IfOk result (λ ran. ran.history ≡ history_by files clients.now (told_entries ran.history)) }
    ensures honest { IfOk result (λ ran. AreHonest (answers_by K.Key.cmp K.given K.make K.answers_over) terms files clients.now (told_entries ran.history) ran.records) }
{
    let script = ScriptClient {
        clients,
        terms,
        gate,
    };
    let ended = run_clients::<K, ScriptClient<'_, G>, R>(
        rt,
        alloc,
        files,
        clients.len() as u32,
        command_count(clients),
        &script,
        terms.order,
    )?;
    let Ended { history, left } = ended;
    let all = all_told(alloc, left)?;
    let (records, counts) = parted(alloc, all)?;
    Ok(Ran {
        history,
        records: List::of(records),
        counts: List::of(counts),
    })
}

/// The entries of a history, as a report tells them.
///
/// # Errors
/// Only for want of memory.
pub fn told_entries(alloc: Global, history: &History) -> Result<Vec<Entry>, NoMemory>
    ensures { IfOk result (λ entries. entries.items ≡ told_entries history.now) }
{
    let mut entries = Vec::new(alloc);
    'entries: for r in 0..history.len() {
        let entry = history.entry(r + 1);
        entries.push(Entry {
            client: entry.client as u64,
            command: entry.command as u64,
        })?;
    }
    Ok(entries)
}

/// How many commands the clients have together.
fn command_count(clients: &[List<Command>]) -> u64
    requires { sum_by length clients.now < 2 ^ 32 }
    ensures { result ≡ sum_by length clients.now }
{
    let mut count = 0;
    for client in clients {
        count += client.items().len() as u64;
    }
    count
}

/// What all clients were told, on condition that none of them found the history full.
fn all_told(alloc: Global, left: List<Result<Told, Stop>>) -> Result<Vec<Told>, NoMemory>
    requires room { (i : ℕ) → ¬ (slice_get left i ≡ Some (Err Stop.Full)) }
    ensures { IfOk result (λ all. left ≡ all_told all.items) }
{
    let mut all = Vec::new(alloc);
    for one in left.into_vec() {
        match one {
            Ok(told) => all.push(told)?,
            Err(Stop::NoMemory) => return Err(AllocError),
            Err(Stop::Full) => unreachable!(),
        }
    }
    Ok(all)
}

/// The records of all clients, and the counts.
fn parted(alloc: Global, all: Vec<Told>) -> Result<(Vec<List<Record>>, Vec<List<u64>>), NoMemory>
    ensures { IfOk result (λ both. (both.0.items ≡ records_told all.items) × (both.1.items ≡ counts_told all.items)) }
{
    let mut records = Vec::with_capacity(alloc, all.len())?;
    let mut counts = Vec::with_capacity(alloc, all.len())?;
    for one in all {
        let Told {
            records: told,
            counts: computed,
        } = one;
        records.push(told)?;
        counts.push(computed)?;
    }
    Ok((records, counts))
}
