//! Rows of lint.
//!
//! `lint RULE .. | INSTANCE | ..`: the lines of what these rules found in these instances, in their order. A rule is `unconnected` or
//! `deep`. An instance is `PATH DEPTH MODULE PORT ..`, and each of its ports that are connected to nothing an input `>NAME`, an output
//! `<NAME` or an inout `*NAME`. The rules see the first half of the instances, and then the others.
use crate::shown::all_lines;
use std::alloc::Global;
use sve_bytes::{Dir, List, Name};
use sve_lint::{Deep, InstanceFacts, Rule, Unconnected, UnconnectedPort, lint_lines, run};
use sve_listed::{Unread, path};
use sve_row::{beside, decoded, fields_of, name_of, offset_of, words_of};

/// What stands in front of a port of each direction.
const DIRECTIONS: &[(&str, Dir)] = &[(">", Dir::Input), ("<", Dir::Output), ("*", Dir::Inout)];

/// The name that a word spells.
fn name(alloc: Global, word: &str) -> Result<Name, Unread> {
    name_of(alloc, &decoded(alloc, word)?)?.ok_or(Unread::NoForm)
}

/// A port that is connected to nothing.
fn port(alloc: Global, word: &str) -> Result<UnconnectedPort, Unread> {
    let (mark, called) = word.split_at_checked(1).ok_or(Unread::NoForm)?;
    Ok(UnconnectedPort {
        name: name(alloc, called)?,
        direction: beside(DIRECTIONS, mark).ok_or(Unread::NoForm)?,
    })
}

/// The instance that a field writes.
fn instance(alloc: Global, field: &str) -> Result<InstanceFacts, Unread> {
    let words = words_of(alloc, field)?;
    let [at, depth, module, ports @ ..] = words.as_slice() else {
        return Err(Unread::NoForm);
    };
    let mut unconnected = Vec::new(alloc);
    for word in ports {
        unconnected.push(port(alloc, word)?)?;
    }
    Ok(InstanceFacts {
        path: path(alloc, at)?,
        module: name(alloc, module)?,
        depth: offset_of(depth).ok_or(Unread::NoForm)?,
        unconnected: List::of(unconnected),
    })
}

/// The instances that these fields write.
fn design(alloc: Global, fields: &[&str]) -> Result<Vec<InstanceFacts>, Unread> {
    let mut instances = Vec::new(alloc);
    for field in fields {
        instances.push(instance(alloc, field)?)?;
    }
    Ok(instances)
}

/// The lines of what rules of these names found.
fn found(
    alloc: Global,
    names: &[&str],
    instances: &[InstanceFacts],
) -> Result<List<List<u8>>, Unread> {
    let mut rules: Vec<Box<dyn Rule>> = Vec::new(alloc);
    for called in names {
        match *called {
            "unconnected" => rules.push(Box::new(alloc, Unconnected::new(alloc))?)?,
            "deep" => rules.push(Box::new(alloc, Deep::new(alloc))?)?,
            _ => return Err(Unread::NoForm),
        }
    }
    let (first, others) = instances.split_at(instances.len() / 2);
    run(alloc, &mut rules, first)?;
    run(alloc, &mut rules, others)?;
    Ok(lint_lines(alloc, &rules)?)
}

/// The answer to a row `lint`.
pub fn lint_row(alloc: Global, row: &str) -> Result<String, Unread> {
    let fields = fields_of(alloc, row)?;
    let [names, instances @ ..] = fields.as_slice() else {
        return Err(Unread::NoForm);
    };
    let names = words_of(alloc, names)?;
    let instances = design(alloc, instances)?;
    let lines = found(alloc, &names, &instances)?;
    if lines.items().is_empty() {
        return Ok(String::from_str(alloc, "nothing")?);
    }
    Ok(all_lines(alloc, lines.items())?)
}
