//! A chain of scopes, and what each step of a row does to it.
use crate::kinds::what_of;
use crate::spelled::{
    add_entered, add_found, add_place, name_at, number_at, part, taken_at, word_at,
};
use std::alloc::Global;
use std::mem;
use std::sync::Arc;
use sve_bytes::{Name, NoMemory};
use sve_row::name_of;
use sve_scope::{Declared, Enclosing, Entered, Explicit, Found, Scope, Spot, Wildcard, lookup};
use sve_table::Table;

/// The scopes so far, and the chunk in which the text stands that comes next.
#[derive(Drop)]
pub struct Chain {
    here: Option<Scope>,
    around: Enclosing<Scope>,
    file: Name,
    chunk: u32,
}

impl Chain {
    /// No scope yet.
    pub fn new(alloc: Global) -> Result<Option<Chain>, NoMemory> {
        match name_of(alloc, b"a.sv")? {
            Some(file) => Ok(Some(Chain {
                here: None,
                around: Enclosing::new(alloc),
                file,
                chunk: 0,
            })),
            None => Ok(None),
        }
    }

    /// Goes on in another chunk.
    fn turn(&mut self, file: Name, chunk: u32) {
        self.file = file;
        self.chunk = chunk;
    }

    /// Opens a scope inside of the others.
    fn open(&mut self, scope: Scope) -> Result<(), NoMemory> {
        match mem::replace(&mut self.here, Some(scope)) {
            Some(outer) => self.around.enter(outer),
            None => Ok(()),
        }
    }

    /// Ends the innermost scope, and answers whether there is one around it.
    fn leave(&mut self) -> bool {
        match self.around.leave() {
            Some(outer) => {
                self.here = Some(outer);
                true
            }
            None => false,
        }
    }

    /// A token where the text stands.
    fn spot(&self, token: u32) -> Result<Spot, NoMemory> {
        Ok(Spot {
            file: self.file.copy()?,
            chunk: self.chunk,
            token,
        })
    }

    /// What a name stands for at a token of the innermost scope.
    fn found(&self, name: &Name, token: u32) -> Found<'_> {
        match &self.here {
            Some(here) => lookup(here, &self.around, name, token),
            None => Found::None,
        }
    }

    /// Notes that a use took a name through an import of all names in the scope at a place.
    fn take(&mut self, place: Option<usize>, name: &Name) -> Result<(), NoMemory> {
        let Some(place) = place else {
            return Ok(());
        };
        if place > 0 {
            return self.around.take(place - 1, name);
        }
        match &mut self.here {
            Some(scope) => scope.take(name),
            None => Ok(()),
        }
    }
}

/// Step `text`.
pub fn text_step(alloc: Global, chain: &mut Chain, words: &[&str]) -> Result<bool, NoMemory> {
    let Some(chunk) = number_at(words, 2) else {
        return Ok(false);
    };
    let Some(file) = name_at(alloc, words, 1)? else {
        return Ok(false);
    };
    chain.turn(file, chunk);
    Ok(true)
}

/// Step `scope`.
pub fn scope_step(alloc: Global, chain: &mut Chain, words: &[&str]) -> Result<bool, NoMemory> {
    if !text_step(alloc, chain, words)? {
        return Ok(false);
    }
    let scope = Scope::new(alloc, chain.file.copy()?, chain.chunk);
    chain.open(scope)?;
    Ok(true)
}

/// Step `leave`.
pub fn leave_step(chain: &mut Chain) -> bool {
    chain.leave()
}

/// The declaration of a name of this kind.
fn declared_as(
    alloc: Global,
    kind: &str,
    name: Name,
    at: Spot,
    from: u32,
) -> Result<Option<Declared>, NoMemory> {
    match what_of(alloc, kind)? {
        Some(what) => Ok(Some(Declared {
            name,
            what,
            at,
            from,
        })),
        None => Ok(None),
    }
}

/// The declaration that a step says.
fn declared_of(alloc: Global, chain: &Chain, words: &[&str]) -> Result<Option<Declared>, NoMemory> {
    let Some(token) = number_at(words, 3) else {
        return Ok(None);
    };
    let Some(from) = number_at(words, 4) else {
        return Ok(None);
    };
    let Some(name) = name_at(alloc, words, 2)? else {
        return Ok(None);
    };
    let at = chain.spot(token)?;
    declared_as(alloc, word_at(words, 1), name, at, from)
}

/// Declares something in the innermost scope.
fn declare(chain: &mut Chain, declared: Declared) -> Result<Option<Entered>, NoMemory> {
    match &mut chain.here {
        Some(scope) => Ok(Some(scope.declare(declared)?)),
        None => Ok(None),
    }
}

/// Adds how something came in, or answers that there was no scope.
fn answered(out: &mut String, entered: Option<Entered>) -> Result<bool, NoMemory> {
    match entered {
        Some(entered) => {
            add_entered(out, entered)?;
            Ok(true)
        }
        None => Ok(false),
    }
}

/// Step `declare`.
pub fn declare_step(
    alloc: Global,
    chain: &mut Chain,
    out: &mut String,
    words: &[&str],
) -> Result<bool, NoMemory> {
    match declared_of(alloc, chain, words)? {
        Some(declared) => answered(out, declare(chain, declared)?),
        None => Ok(false),
    }
}

/// The import of one name that a step says.
fn explicit_of(alloc: Global, chain: &Chain, words: &[&str]) -> Result<Option<Explicit>, NoMemory> {
    let Some(token) = number_at(words, 3) else {
        return Ok(None);
    };
    let Some(from) = name_at(alloc, words, 1)? else {
        return Ok(None);
    };
    let Some(name) = name_at(alloc, words, 2)? else {
        return Ok(None);
    };
    let at = chain.spot(token)?;
    Ok(Some(Explicit { name, from, at }))
}

/// Imports one name into the innermost scope.
fn import(chain: &mut Chain, import: Explicit) -> Result<Option<Entered>, NoMemory> {
    match &mut chain.here {
        Some(scope) => Ok(Some(scope.import_name(import)?)),
        None => Ok(None),
    }
}

/// Step `import`.
pub fn import_step(
    alloc: Global,
    chain: &mut Chain,
    out: &mut String,
    words: &[&str],
) -> Result<bool, NoMemory> {
    match explicit_of(alloc, chain, words)? {
        Some(found) => answered(out, import(chain, found)?),
        None => Ok(false),
    }
}

/// The names behind the third word.
fn names_of(alloc: Global, words: &[&str]) -> Result<Table<Name>, NoMemory> {
    let mut names = Table::new(alloc);
    for place in 3..words.len() {
        if let Some(name) = name_at(alloc, words, place)? {
            names.add(name)?;
        }
    }
    Ok(names)
}

/// The import of all names of a package that a step says.
fn wildcard_of(alloc: Global, chain: &Chain, words: &[&str]) -> Result<Option<Wildcard>, NoMemory> {
    let Some(token) = number_at(words, 2) else {
        return Ok(None);
    };
    let Some(from) = name_at(alloc, words, 1)? else {
        return Ok(None);
    };
    let names = Arc::new(alloc, names_of(alloc, words)?)?;
    Ok(Some(Wildcard::of(from, names, chain.spot(token)?)))
}

/// Imports all names of a package into the innermost scope.
fn import_all(chain: &mut Chain, import: Wildcard) -> Result<Option<Entered>, NoMemory> {
    match &mut chain.here {
        Some(scope) => {
            if scope.import_all(import)? {
                Ok(Some(Entered::New))
            } else {
                Ok(Some(Entered::Again))
            }
        }
        None => Ok(None),
    }
}

/// Step `all`.
pub fn all_step(
    alloc: Global,
    chain: &mut Chain,
    out: &mut String,
    words: &[&str],
) -> Result<bool, NoMemory> {
    match wildcard_of(alloc, chain, words)? {
        Some(found) => answered(out, import_all(chain, found)?),
        None => Ok(false),
    }
}

/// Adds what a name stands for at a token.
fn use_at(chain: &mut Chain, out: &mut String, name: &Name, token: u32) -> Result<(), NoMemory> {
    let found = chain.found(name, token);
    add_found(out, found)?;
    let place = taken_at(found);
    chain.take(place, name)
}

/// Step `use`.
pub fn use_step(
    alloc: Global,
    chain: &mut Chain,
    out: &mut String,
    words: &[&str],
) -> Result<bool, NoMemory> {
    let Some(token) = number_at(words, 2) else {
        return Ok(false);
    };
    match name_at(alloc, words, 1)? {
        Some(name) => {
            use_at(chain, out, &name, token)?;
            Ok(true)
        }
        None => Ok(false),
    }
}

/// Adds what a name stands for behind `::`, or answers that there is no scope.
fn add_member(chain: &Chain, out: &mut String, name: &Name) -> Result<bool, NoMemory> {
    let Some(scope) = &chain.here else {
        return Ok(false);
    };
    part(out)?;
    match scope.declared.get(name) {
        Some(declared) => add_place(out, declared)?,
        None => out.push_str("nothing")?,
    }
    Ok(true)
}

/// Step `member`.
pub fn member_step(
    alloc: Global,
    chain: &Chain,
    out: &mut String,
    words: &[&str],
) -> Result<bool, NoMemory> {
    match name_at(alloc, words, 1)? {
        Some(name) => add_member(chain, out, &name),
        None => Ok(false),
    }
}
