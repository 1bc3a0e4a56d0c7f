//! Rows of hierarchical names.
//!
//! - `instances FUEL | TOPS | BODY | ..`: `path:module:scopes` of each instance with the number of scopes of its body, or `over`; behind
//!   it what was asked for once all instances were visited.
//! - `resolve FROM NAME | TOPS | BODY | ..`: what a name means that is used in the scope at the path `FROM`: `top NAME`, or the path of what
//!   is declared, its kind and its place, or `none`. `$root.` may stand in front of the name.
use crate::walks::add_asked;
use std::alloc::Global;
use std::fmt::Write;
use sve_bytes::{List, NoMemory};
use sve_design::{Visit, Walk, walk};
use sve_hier::{Hierarchy, Instance, Resolved, instances};
use sve_listed::{Listed, Unread, parted, path};
use sve_row::{offset_of, spell, words_of};
use sve_scope::{Declared, What};

/// All instances of the bodies.
fn visits(alloc: Global, bodies: &mut Listed) -> Result<List<Visit>, Unread> {
    match walk(alloc, bodies, u32::MAX)? {
        Walk::Done(visits) => Ok(visits),
        Walk::Spent => Err(Unread::NoForm),
    }
}

/// Adds the instances, parted by blanks.
fn add_instances(alloc: Global, out: &mut String, instances: &[Instance]) -> Result<(), NoMemory> {
    for (place, instance) in instances.iter().enumerate() {
        if place > 0 {
            out.push_str(" ")?;
        }
        spell(out, &instance.path.print(alloc)?)?;
        out.push_str(":")?;
        spell(out, instance.module.bytes())?;
        let scopes = instance.facts.scopes.items().len();
        write!(out, ":{scopes}")?;
    }
    Ok(())
}

/// The answer to a row `instances`.
pub fn instances_row(alloc: Global, row: &str) -> Result<String, Unread> {
    let (fuel, mut bodies) = parted(alloc, row)?;
    let fuel = offset_of(fuel).ok_or(Unread::NoForm)?;
    let visits = visits(alloc, &mut bodies)?;
    bodies.asked.clear();
    let mut out = String::new(alloc);
    match instances(alloc, &mut bodies, visits.items(), fuel)? {
        Some(instances) => add_instances(alloc, &mut out, instances.items())?,
        None => out.push_str("over")?,
    }
    add_asked(&mut out, &bodies)?;
    Ok(out)
}

/// The kind of what is declared.
fn kind(declared: &Declared) -> &'static str {
    match declared.what {
        What::Instance => "instance",
        What::Block => "block",
        _ => "other",
    }
}

/// Adds what a name means.
fn add_resolved(alloc: Global, out: &mut String, resolved: &Resolved) -> Result<(), NoMemory> {
    match resolved {
        Resolved::Top(module) => {
            out.push_str("top ")?;
            spell(out, module.bytes())
        }
        Resolved::Declared { path, declared } => {
            spell(out, &path.print(alloc)?)?;
            let kind = kind(declared);
            write!(out, " {kind} at ")?;
            spell(out, declared.at.file.bytes())?;
            let token = declared.at.token;
            write!(out, ":{token}")
        }
    }
}

/// The answer to a row `resolve`.
pub fn resolve_row(alloc: Global, row: &str) -> Result<String, Unread> {
    let (asked, mut bodies) = parted(alloc, row)?;
    let words = words_of(alloc, asked)?;
    let [from, name] = words.as_slice() else {
        return Err(Unread::NoForm);
    };
    let (rooted, name) = match name.strip_prefix("$root.") {
        Some(name) => (true, name),
        None => (false, *name),
    };
    let (from, name) = (path(alloc, from)?, path(alloc, name)?);
    let visits = visits(alloc, &mut bodies)?;
    let Some(instances) = instances(alloc, &mut bodies, visits.items(), u32::MAX)? else {
        return Err(Unread::NoForm);
    };
    let hierarchy = Hierarchy::of(alloc, instances.items())?;
    let mut out = String::new(alloc);
    match hierarchy.resolve(alloc, &from, rooted, &name)? {
        Some(resolved) => add_resolved(alloc, &mut out, &resolved)?,
        None => out.push_str("none")?,
    }
    Ok(out)
}
