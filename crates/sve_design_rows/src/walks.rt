//! Rows of the walk over all instances.
//!
//! - `walk BUDGET | TOPS | BODY | ..`: `path:depth:module` of each instance, or `spent`; behind it what was asked for, each as
//!   `module@fuel`.
//! - `count BUDGET | TOPS | BODY | ..`: how many instances there are, the depth of the last, and what is to be said of instances that
//!   would stand too deep, as `file:chunk:token code name`.
use std::alloc::Global;
use std::fmt::Write;
use sve_bytes::NoMemory;
use sve_design::{Visit, Walk, deep_notes, walk};
use sve_diag::Note;
use sve_facts::{Bodies, Body};
use sve_listed::{Listed, Unread, parted};
use sve_row::{offset_of, spell};

/// Adds `path:depth:module`.
pub fn add_visit(alloc: Global, out: &mut String, visit: &Visit) -> Result<(), NoMemory> {
    spell(out, &visit.path.print(alloc)?)?;
    let depth = visit.depth;
    write!(out, ":{depth}:")?;
    spell(out, visit.spec.definition.bytes())
}

/// Adds what was asked for.
pub fn add_asked(out: &mut String, bodies: &Listed) -> Result<(), NoMemory> {
    out.push_str(" asked")?;
    out.push_str(bodies.asked.as_str())
}

/// The instances, parted by blanks.
fn add_visits(alloc: Global, out: &mut String, visits: &[Visit]) -> Result<(), NoMemory> {
    if visits.is_empty() {
        return out.push_str("nothing");
    }
    for (place, visit) in visits.iter().enumerate() {
        if place > 0 {
            out.push_str(" ")?;
        }
        add_visit(alloc, out, visit)?;
    }
    Ok(())
}

/// The answer to a row `walk`.
pub fn walk_row(alloc: Global, row: &str) -> Result<String, Unread> {
    let (budget, mut bodies) = parted(alloc, row)?;
    let budget = offset_of(budget).ok_or(Unread::NoForm)?;
    let mut out = String::new(alloc);
    match walk(alloc, &mut bodies, budget)? {
        Walk::Done(visits) => add_visits(alloc, &mut out, visits.items())?,
        Walk::Spent => out.push_str("spent")?,
    }
    add_asked(&mut out, &bodies)?;
    Ok(out)
}

/// Adds `file:chunk:token code name`.
pub fn add_note(out: &mut String, note: &Note) -> Result<(), NoMemory> {
    out.push_str(", ")?;
    spell(out, note.file.bytes())?;
    let Note { chunk, token, .. } = note;
    write!(out, ":{chunk}:{token} ")?;
    spell(out, note.code.spelling())?;
    if let Some(arg) = &note.arg {
        out.push_str(" ")?;
        spell(out, arg.bytes())?;
    }
    Ok(())
}

/// Adds what is to be said of instances that would stand too deep in the body of another.
fn add_deep(
    alloc: Global,
    out: &mut String,
    bodies: &mut Listed,
    visit: &Visit,
) -> Result<(), Unread> {
    let body = bodies.body(alloc, &visit.spec, u32::MAX)?;
    if let Body::Done { facts, .. } = &body {
        for note in &deep_notes(alloc, visit, facts)? {
            add_note(out, note)?;
        }
    }
    Ok(())
}

/// The answer to a row `count`.
pub fn count_row(alloc: Global, row: &str) -> Result<String, Unread> {
    let (budget, mut bodies) = parted(alloc, row)?;
    let budget = offset_of(budget).ok_or(Unread::NoForm)?;
    let Walk::Done(visits) = walk(alloc, &mut bodies, budget)? else {
        return Ok(String::from_str(alloc, "spent")?);
    };
    let count = visits.items().len();
    let last = visits.items().last().map_or(0, |visit| visit.depth);
    let mut out = format!(in alloc; "{count} instances, the last at {last}")?;
    for visit in visits.items() {
        add_deep(alloc, &mut out, &mut bodies, visit)?;
    }
    Ok(out)
}
