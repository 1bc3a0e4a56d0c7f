//! Rows of many names: `many declared N` declares N names in one scope and looks each of them up; `many scopes N USES` has N scopes
//! in a chain, each but the outermost with an import of all names of a package that lacks the name, and looks the name up so many
//! times. The answer is how many were found.
use std::alloc::{AllocError, Global};
use std::mem;
use std::sync::Arc;
use sve_bytes::{Name, NoMemory};
use sve_row::{add_number, name_of, number_of, word};
use sve_scope::{Declared, Enclosing, Found, Scope, Spot, What, Wildcard, lookup};
use sve_table::Table;

/// The most names, scopes and uses of a row.
const MOST: usize = 1_000_000;

/// The name of this letter and number.
pub fn numbered(alloc: Global, letter: &str, number: usize) -> Result<Name, NoMemory> {
    let mut text = String::from_str(alloc, letter)?;
    add_number(&mut text, number)?;
    match name_of(alloc, text.as_bytes())? {
        Some(name) => Ok(name),
        None => Err(AllocError),
    }
}

/// The first token of the only chunk.
fn first_spot(file: &Name) -> Result<Spot, NoMemory> {
    Ok(Spot {
        file: file.copy()?,
        chunk: 0,
        token: 0,
    })
}

/// Declares the name of this number.
fn declare(alloc: Global, scope: &mut Scope, file: &Name, number: usize) -> Result<(), NoMemory> {
    let declared = Declared {
        name: numbered(alloc, "x", number)?,
        what: What::Genvar,
        at: first_spot(file)?,
        from: 0,
    };
    let _ = scope.declare(declared)?;
    Ok(())
}

/// A scope with so many names.
fn scope_of(alloc: Global, file: &Name, count: usize) -> Result<Scope, NoMemory> {
    let mut scope = Scope::new(alloc, file.copy()?, 0);
    for number in 0..count {
        declare(alloc, &mut scope, file, number)?;
    }
    Ok(scope)
}

/// A scope and those around it.
#[derive(Drop)]
struct Nest {
    here: Scope,
    around: Enclosing<Scope>,
}

/// One if the name of this number is found, else none.
fn found(alloc: Global, nest: &Nest, number: usize) -> Result<usize, NoMemory> {
    let name = numbered(alloc, "x", number)?;
    let found = lookup(&nest.here, &nest.around, &name, 1);
    Ok(if matches!(found, Found::None) { 0 } else { 1 })
}

/// A number as an answer.
pub fn number_answer(alloc: Global, number: usize) -> Result<Option<String>, NoMemory> {
    let mut out = String::new(alloc);
    add_number(&mut out, number)?;
    Ok(Some(out))
}

/// The answer to a row `declared`.
fn declared_row(alloc: Global, count: usize) -> Result<Option<String>, NoMemory> {
    let file = numbered(alloc, "f", 0)?;
    let nest = Nest {
        here: scope_of(alloc, &file, count)?,
        around: Enclosing::new(alloc),
    };
    let mut sum: usize = 0;
    for number in 0..count {
        sum = sum.wrapping_add(found(alloc, &nest, number)?);
    }
    number_answer(alloc, sum)
}

/// An import of all names of the package of this number.
fn import_of(alloc: Global, file: &Name, number: usize) -> Result<Wildcard, NoMemory> {
    let from = numbered(alloc, "p", number)?;
    let at = first_spot(file)?;
    let mut names = Table::new(alloc);
    names.add(numbered(alloc, "y", 0)?)?;
    Ok(Wildcard::of(from, Arc::new(alloc, names)?, at))
}

/// A scope that imports all names of the package of this number.
fn importing(alloc: Global, file: &Name, number: usize) -> Result<Scope, NoMemory> {
    let import = import_of(alloc, file, number)?;
    let mut scope = Scope::new(alloc, file.copy()?, 0);
    scope.import_all(import)?;
    Ok(scope)
}

/// So many scopes, of which the outermost has one name.
fn nest_of(alloc: Global, count: usize) -> Result<Nest, NoMemory> {
    let file = numbered(alloc, "f", 0)?;
    let mut nest = Nest {
        here: scope_of(alloc, &file, 1)?,
        around: Enclosing::new(alloc),
    };
    for number in 1..count {
        let inner = importing(alloc, &file, number)?;
        let outer = mem::replace(&mut nest.here, inner);
        nest.around.enter(outer)?;
    }
    Ok(nest)
}

/// The answer to a row `scopes`.
fn scopes_row(alloc: Global, count: usize, uses: usize) -> Result<Option<String>, NoMemory> {
    let nest = nest_of(alloc, count)?;
    let mut sum: usize = 0;
    for _ in 0..uses {
        sum = sum.wrapping_add(found(alloc, &nest, 0)?);
    }
    number_answer(alloc, sum)
}

/// The number that a word writes, or 0.
fn count_of(word: &str) -> usize {
    number_of(word).unwrap_or(0).min(MOST)
}

/// The answer to a row `many`.
pub fn many_row(alloc: Global, row: &str) -> Result<Option<String>, NoMemory> {
    let (kind, rest) = word(row);
    let (count, uses) = word(rest);
    match kind {
        "declared" => declared_row(alloc, count_of(count)),
        "scopes" => scopes_row(alloc, count_of(count), count_of(uses)),
        _ => Ok(None),
    }
}
