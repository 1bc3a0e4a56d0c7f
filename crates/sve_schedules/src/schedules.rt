//! Rows of schedules.
ghost use Rattle.sve_world.specs.Machine.{BringsNothing};

use crate::reading::{Spelled, clients_of, event_of};
use crate::showing::{show_entries, show_files, show_what_came};
use std::alloc::Global;
use sve_allowed::allows;
use sve_ask::Fresh;
use sve_bytes::NoMemory;
use sve_row::{Table, field, number_of, parts_of, word};
use sve_sample::{Texts, files_of};
use sve_world::{Event, EventOf, World, step};

/// The rows of this table.
///
/// * `run CLIENTS | FILES | EVENTS` lets the events happen one after another, and answers what came of each and the history.
/// * `files CLIENTS R | FILES | EVENTS` answers the files of revision `R` after the events, with their stamps.
pub struct Schedules;

impl Table for Schedules {
    fn answer(&self, alloc: Global, kind: &str, row: &str) -> Result<Option<String>, NoMemory> {
        match kind {
            "run" => run(alloc, row),
            "files" => files(alloc, row),
            _ => Ok(None),
        }
    }
}

/// A world with its first events behind it, and what came of each.
fn played(
    alloc: Global,
    clients: &str,
    row: &str,
) -> Result<Option<(World<Texts>, String)>, NoMemory> {
    let Some(clients) = clients_of(clients) else {
        return Ok(None);
    };
    let (texts, events) = field(row);
    let Some(files) = files_of(alloc, texts)? else {
        return Ok(None);
    };
    let mut world = World::open(alloc, files, clients)?;
    let mut out = String::new(alloc);
    for one in parts_of(alloc, events, "; ")? {
        if !happens(alloc, &mut world, one, &mut out)? {
            return Ok(None);
        }
    }
    Ok(Some((world, out)))
}

/// Lets the event of these words happen, if it may come, and adds what came of it; whether they are those of an event.
fn happens(
    alloc: Global,
    world: &mut World<Texts>,
    words: &str,
    out: &mut String,
) -> Result<bool, NoMemory> {
    let Some((client, event)) = event_of(alloc, words)? else {
        return Ok(false);
    };
    let event = bringing_nothing(event);
    if !allows(world, &event) {
        out.push_str("not now; ")?;
        return Ok(true);
    }
    step(alloc, world, event)?;
    if 1 <= client && client as usize <= world.clients() {
        show_what_came(out, world, client, word(word(words).1).0)?;
        out.push_str("; ")?;
    }
    Ok(true)
}

/// The event, with no memo where a snapshot is given back.
fn bringing_nothing(event: Spelled) -> Event<Texts>
    ensures { BringsNothing (λ fresh. fresh.memos) result }
{
    match event {
        EventOf::Commit {
            client,
            command,
            edits,
        } => EventOf::Commit {
            client,
            command,
            edits,
        },
        EventOf::Refuse {
            client,
            command,
            edits,
        } => EventOf::Refuse {
            client,
            command,
            edits,
        },
        EventOf::Begin { client } => EventOf::Begin { client },
        EventOf::Look { client } => EventOf::Look { client },
        EventOf::Answer {
            client,
            command,
            query,
            budget,
            mode,
            newer,
        } => EventOf::Answer {
            client,
            command,
            query,
            budget,
            mode,
            newer,
        },
        EventOf::Publish { client, fresh: () } => EventOf::Publish {
            client,
            fresh: Fresh::new(),
        },
    }
}

fn run(alloc: Global, row: &str) -> Result<Option<String>, NoMemory> {
    let (clients, row) = field(row);
    let Some((world, mut out)) = played(alloc, clients, row)? else {
        return Ok(None);
    };
    show_entries(&mut out, world.history())?;
    Ok(Some(out))
}

fn files(alloc: Global, row: &str) -> Result<Option<String>, NoMemory> {
    let (head, row) = field(row);
    let (clients, r) = word(head);
    let Some(r) = number_of(r) else {
        return Ok(None);
    };
    let Some((world, _)) = played(alloc, clients, row)? else {
        return Ok(None);
    };
    let r = r as u64;
    if r > world.history().len() {
        return Ok(None);
    }
    let mut out = String::new(alloc);
    show_files(alloc, &mut out, world.history().revision(r))?;
    Ok(Some(out))
}
