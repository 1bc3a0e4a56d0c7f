//! How answers spell what came of events.
ghost use Rattle.sve_world.specs.Machine.{IsClient};

use std::alloc::Global;
use std::fmt::Write;
use sve_bytes::NoMemory;
use sve_history::History;
use sve_row::spell;
use sve_sample::{Texts, show_commit, show_outcome};
use sve_seat::Told;
use sve_text::Files;
use sve_world::World;

/// Adds what came of an event of this kind for its client, which is there.
pub fn show_what_came(
    out: &mut String,
    world: &World<Texts>,
    client: u32,
    kind: &str,
) -> Result<(), NoMemory>
    requires { IsClient world.now client }
{
    match kind {
        "begin" => show_held(out, world, client),
        "look" => match world.looks(client).last() {
            Some(look) => write!(out, "saw {look}"),
            None => Ok(()),
        },
        "publish" => out.push_str("back"),
        _ => match world.told(client).last() {
            Some(told) => show_told(out, told),
            None => Ok(()),
        },
    }
}

/// Adds the revision of the snapshot that a client holds.
fn show_held(out: &mut String, world: &World<Texts>, client: u32) -> Result<(), NoMemory>
    requires { IsClient world.now client }
{
    match world.held(client) {
        Some(held) => {
            let revision = held.snapshot.revision();
            write!(out, "at {revision}")
        }
        None => Ok(()),
    }
}

fn show_told<Q>(out: &mut String, told: &Told<Q>) -> Result<(), NoMemory> {
    match told {
        Told::Committed { commit, .. } => show_commit(out, *commit),
        Told::Asked { outcome, .. } => show_outcome(out, outcome),
    }
}

/// Adds the entries of a history, as `CLIENT.COMMAND`, or `no entry`.
pub fn show_entries(out: &mut String, history: &History) -> Result<(), NoMemory> {
    if history.len() == 0 {
        return out.push_str("no entry");
    }
    out.push_str("entries")?;
    for i in 0..history.len() {
        let entry = history.entry(i + 1);
        let client = entry.client;
        let command = entry.command;
        write!(out, " {client}.{command}")?;
    }
    Ok(())
}

/// Adds these files, each as its name, its stamp and its text, with the stamp of the set of names in front.
pub fn show_files(alloc: Global, out: &mut String, files: &Files) -> Result<(), NoMemory> {
    let names_stamp = files.names_stamp();
    write!(out, "names {names_stamp}")?;
    for i in 0..files.count() {
        let name = files.name(i);
        let stamp = files.stamp(name);
        out.push_str("; ")?;
        spell(out, name.bytes())?;
        write!(out, " {stamp} ")?;
        if let Some(text) = files.shared_text(alloc, name)? {
            spell(out, text.items())?;
        }
    }
    Ok(())
}
