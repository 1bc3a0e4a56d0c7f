//! Rows of the way along a path.
//!
//! - `find BUDGET PATH | TOPS | BODY | ..`: `path:depth:module`, where its name stands, the steps behind it, how many children it has
//!   and what is left, or `none`, or `spent`; behind it what was asked for.
use crate::walks::{add_asked, add_visit};
use std::alloc::Global;
use std::fmt::Write;
use sve_bytes::{List, NoMemory, Path, Step};
use sve_find::{Find, Found, find};
use sve_listed::{Unread, parted, path};
use sve_row::{offset_of, spell, word};
use sve_scope::Spot;

/// Adds where a name stands.
fn add_spot(out: &mut String, at: &Option<Spot>) -> Result<(), NoMemory> {
    match at {
        Some(spot) => {
            out.push_str(" at ")?;
            spell(out, spot.file.bytes())?;
            let Spot { chunk, token, .. } = spot;
            write!(out, ":{chunk}:{token}")
        }
        None => out.push_str(" top"),
    }
}

/// The steps behind an instance, as a path.
fn rest_of(alloc: Global, rest: &[Step]) -> Result<Path, NoMemory> {
    let mut steps = Vec::new(alloc);
    for step in rest {
        steps.push(step.copy()?)?;
    }
    Ok(Path {
        steps: List::of(steps),
    })
}

/// Adds what was found.
fn add_found(alloc: Global, out: &mut String, found: &Found) -> Result<(), NoMemory> {
    add_visit(alloc, out, &found.visit)?;
    add_spot(out, &found.at)?;
    let rest = found.rest.items();
    if !rest.is_empty() {
        out.push_str(" in ")?;
        spell(out, &rest_of(alloc, rest)?.print(alloc)?)?;
    }
    let (left, children) = (found.left, found.facts.children.items().len());
    write!(out, " with {children} left {left}")
}

/// The answer to a row `find`.
pub fn find_row(alloc: Global, row: &str) -> Result<String, Unread> {
    let (asked, mut bodies) = parted(alloc, row)?;
    let (budget, spelled) = word(asked);
    let budget = offset_of(budget).ok_or(Unread::NoForm)?;
    let path = path(alloc, spelled)?;
    let mut out = String::new(alloc);
    match find(alloc, &mut bodies, &path, budget)? {
        Find::Here(found) => add_found(alloc, &mut out, &found)?,
        Find::None => out.push_str("none")?,
        Find::Spent => out.push_str("spent")?,
    }
    add_asked(&mut out, &bodies)?;
    Ok(out)
}
