//! Rows of packages: `rounds` with `PACKAGE:IMPORT,..` for each. The answer has the round of each, or `-`.
//!
//! `rounds chain N` is answered for N packages of which each imports the next, and `rounds star N` for N packages of which the first
//! imports all others: the number of packages that have a round, and the highest.
use crate::many::numbered;
use std::alloc::Global;
use sve_bytes::{List, Name, NoMemory};
use sve_package_order::{PackageImports, order};
use sve_row::{add_number, name_of, number_of, parts_of, word, words_of};

/// The most packages of a row.
const MOST: usize = 100_000;

/// The names in a list with commas.
fn imports_of(alloc: Global, list: &str) -> Result<Vec<Name>, NoMemory> {
    let mut imports = Vec::new(alloc);
    for part in &parts_of(alloc, list, ",")? {
        if let Some(name) = name_of(alloc, part.as_bytes())? {
            imports.push(name)?;
        }
    }
    Ok(imports)
}

/// The package that a word spells.
fn package_of(alloc: Global, word: &str) -> Result<Option<PackageImports>, NoMemory> {
    let (name, list) = word.split_once(':').unwrap_or((word, ""));
    let Some(name) = name_of(alloc, name.as_bytes())? else {
        return Ok(None);
    };
    let imports = List::of(imports_of(alloc, list)?);
    Ok(Some(PackageImports { name, imports }))
}

/// The package of this number, with these imports.
fn package(alloc: Global, number: usize, imports: Vec<Name>) -> Result<PackageImports, NoMemory> {
    Ok(PackageImports {
        name: numbered(alloc, "p", number)?,
        imports: List::of(imports),
    })
}

/// The package of this number, which imports the next.
fn link(alloc: Global, number: usize) -> Result<PackageImports, NoMemory> {
    let mut imports = Vec::new(alloc);
    imports.push(numbered(alloc, "p", number.wrapping_add(1))?)?;
    package(alloc, number, imports)
}

/// Packages of which each imports the next.
fn chain(alloc: Global, count: usize) -> Result<Vec<PackageImports>, NoMemory> {
    let mut packages = Vec::new(alloc);
    for number in 0..count {
        packages.push(link(alloc, number)?)?;
    }
    Ok(packages)
}

/// The first package of a star, which imports all others.
fn middle(alloc: Global, count: usize) -> Result<PackageImports, NoMemory> {
    let mut imports = Vec::new(alloc);
    for number in 1..count {
        imports.push(numbered(alloc, "p", number)?)?;
    }
    package(alloc, 0, imports)
}

/// Packages of which the first imports all others.
fn star(alloc: Global, count: usize) -> Result<Vec<PackageImports>, NoMemory> {
    let mut packages = Vec::new(alloc);
    packages.push(middle(alloc, count)?)?;
    for number in 1..count {
        packages.push(package(alloc, number, Vec::new(alloc))?)?;
    }
    Ok(packages)
}

/// How many rounds there are, and the highest.
fn counted(rounds: &[Option<u32>]) -> (usize, u32) {
    let mut count: usize = 0;
    let mut highest = 0;
    for round in rounds {
        if let Some(round) = round {
            count = count.wrapping_add(1);
            highest = highest.max(*round);
        }
    }
    (count, highest)
}

/// The rounds of packages, if they are not too many.
fn rounds_of(
    alloc: Global,
    packages: &[PackageImports],
) -> Result<Option<Vec<Option<u32>>>, NoMemory> {
    if packages.len() > MOST {
        return Ok(None);
    }
    Ok(Some(order(alloc, packages)?))
}

/// The answer to a row of many packages.
fn counted_row(alloc: Global, packages: &[PackageImports]) -> Result<Option<String>, NoMemory> {
    let Some(rounds) = rounds_of(alloc, packages)? else {
        return Ok(None);
    };
    let (count, highest) = counted(&rounds);
    let mut out = String::new(alloc);
    add_number(&mut out, count)?;
    out.push_str(" up to ")?;
    add_number(&mut out, highest as usize)?;
    Ok(Some(out))
}

/// Adds a round.
fn add_round(out: &mut String, round: Option<u32>) -> Result<(), NoMemory> {
    if !out.is_empty() {
        out.push(' ')?;
    }
    match round {
        Some(round) => add_number(out, round as usize),
        None => out.push('-'),
    }
}

/// The packages that a row spells.
fn packages_of(alloc: Global, row: &str) -> Result<Vec<PackageImports>, NoMemory> {
    let mut packages = Vec::new(alloc);
    for word in &words_of(alloc, row)? {
        if let Some(package) = package_of(alloc, word)? {
            packages.push(package)?;
        }
    }
    Ok(packages)
}

/// The answer to a row that spells its packages.
fn listed_row(alloc: Global, row: &str) -> Result<Option<String>, NoMemory> {
    let packages = packages_of(alloc, row)?;
    let Some(rounds) = rounds_of(alloc, &packages)? else {
        return Ok(None);
    };
    let mut out = String::new(alloc);
    for round in &rounds {
        add_round(&mut out, *round)?;
    }
    Ok(Some(out))
}

/// The answer to a row `rounds`.
pub fn rounds_row(alloc: Global, row: &str) -> Result<Option<String>, NoMemory> {
    let (kind, rest) = word(row);
    let count = number_of(rest).unwrap_or(0).min(MOST);
    match kind {
        "chain" => counted_row(alloc, &chain(alloc, count)?),
        "star" => counted_row(alloc, &star(alloc, count)?),
        _ => listed_row(alloc, row),
    }
}
