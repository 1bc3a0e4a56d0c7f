//! Rows of what all instances give.
//!
//! - `notes BUDGET | TOPS | BODY | ..`: how much is to be said of all instances, and each note as `file:chunk:token code name`; or
//!   `spent`.
//! - `lint BUDGET | TOPS | BODY | ..`: `path:depth:module` of each instance, and behind each its ports that are connected to nothing,
//!   with their directions; or `spent`. Behind that what was asked for.
use crate::walks::{add_asked, add_note};
use std::alloc::Global;
use std::fmt::Write;
use sve_bytes::{Dir, NoMemory};
use sve_lint::{InstanceFacts, UnconnectedPort};
use sve_listed::{Unread, parted};
use sve_row::{offset_of, spell};
use sve_survey::{instances_for_lint, notes_of_instances, surveyed_instances};

/// The answer to a row `notes`.
pub fn notes_row(alloc: Global, row: &str) -> Result<String, Unread> {
    let (budget, mut bodies) = parted(alloc, row)?;
    let budget = offset_of(budget).ok_or(Unread::NoForm)?;
    let Some(instances) = surveyed_instances(alloc, &mut bodies, budget)? else {
        return Ok(String::from_str(alloc, "spent")?);
    };
    let notes = notes_of_instances(alloc, instances.as_slice())?;
    let count = notes.len();
    let mut out = format!(in alloc; "{count} notes")?;
    for note in &notes {
        add_note(&mut out, note)?;
    }
    Ok(out)
}

/// Adds ` !direction:name`.
fn add_port(out: &mut String, port: &UnconnectedPort) -> Result<(), NoMemory> {
    let direction = match port.direction {
        Dir::Input => "input",
        Dir::Output => "output",
        Dir::Inout => "inout",
    };
    write!(out, " !{direction}:")?;
    spell(out, port.name.bytes())
}

/// Adds `path:depth:module` and the ports of an instance that are connected to nothing.
fn add_instance(alloc: Global, out: &mut String, instance: &InstanceFacts) -> Result<(), NoMemory> {
    spell(out, &instance.path.print(alloc)?)?;
    let depth = instance.depth;
    write!(out, ":{depth}:")?;
    spell(out, instance.module.bytes())?;
    for port in instance.unconnected.items() {
        add_port(out, port)?;
    }
    out.push_str(" ")
}

/// The answer to a row `lint`.
pub fn lint_row(alloc: Global, row: &str) -> Result<String, Unread> {
    let (budget, mut bodies) = parted(alloc, row)?;
    let budget = offset_of(budget).ok_or(Unread::NoForm)?;
    let mut out = String::new(alloc);
    match instances_for_lint(alloc, &mut bodies, budget)? {
        Some(instances) => {
            for instance in instances.items() {
                add_instance(alloc, &mut out, instance)?;
            }
        }
        None => out.push_str("spent ")?,
    }
    out.push_str("and")?;
    add_asked(&mut out, &bodies)?;
    Ok(out)
}
