//! What a written type comes to.
ghost use Rattle.std.specs.Prelude.{◌<◌, ◌^◌, length};
ghost use Rattle.sve_fault.specs.Counts.{IsFuel};

use std::alloc::{AllocError, Global};
use std::fmt::Write;
use sve_bytes::NoMemory;
use sve_diag::Note;
use sve_fault::{Fuel, Halted};
use sve_given::{Entry, Scope, note_text, words_of};
use sve_parse_type::{type_name, type_reference};
use sve_row::{name_of, spell};
use sve_show::tokens_of;
use sve_token::Token;
use sve_type_of::{Typed, declared_type, type_of, with_unpacked};
use sve_types::print;

/// What a row asks for.
#[derive(Clone, Copy)]
pub enum Ask {
    /// A type by itself.
    Type,
    /// The type of a declared name with its unpacked dimensions.
    Declared,
    /// A type by itself, of which only the length of its text is wanted.
    Length,
}

/// What the type of a text comes to among names, where so many nodes may be evaluated.
pub fn outcome(
    alloc: Global,
    names: &[Entry],
    ask: Ask,
    text: &str,
    most: u64,
) -> Result<Option<String>, NoMemory> {
    let Some(file) = name_of(alloc, b"table")? else {
        return Ok(None);
    };
    let list = tokens_of(alloc, text.as_bytes())?;
    let tokens = list.items();
    if tokens.len() > u32::MAX as usize {
        return Ok(None);
    }
    let words = words_of(alloc, tokens)?;
    let scope = Scope {
        alloc,
        file: &file,
        words: words.as_slice(),
        names,
    };
    let mut fuel = Fuel { used: 0, most };
    match asked(alloc, ask, tokens, &scope, &mut fuel) {
        Ok(None) => Ok(None),
        Ok(Some(text)) => Ok(Some(format!(in alloc; "{text} | {used}", used = fuel.used)?)),
        Err(Halted::Over) => Ok(Some(String::from_str(alloc, "over")?)),
        Err(Halted::NoMemory) => Err(AllocError),
    }
}

/// What comes of tokens, or nothing where they are no type.
fn asked(
    alloc: Global,
    ask: Ask,
    tokens: &[Token],
    scope: &Scope,
    fuel: &mut Fuel,
) -> Result<Option<String>, Halted>
    requires few { length tokens.now < 2 ^ 32 }
    requires fuel { IsFuel fuel.old }
{
    if matches!(ask, Ask::Declared) {
        return of_name(alloc, tokens, scope, fuel);
    }
    let Ok((tree, end)) = type_reference(alloc, tokens, 0, 0) else {
        return Ok(None);
    };
    if end as usize != tokens.len() {
        return Ok(None);
    }
    let typed = type_of(alloc, &tree, scope, fuel)?;
    match ask {
        Ask::Length => Ok(Some(length_text(alloc, &typed)?)),
        _ => Ok(Some(typed_text(alloc, &typed)?)),
    }
}

/// What the type of a declared name comes to, with its unpacked dimensions.
fn of_name(
    alloc: Global,
    tokens: &[Token],
    scope: &Scope,
    fuel: &mut Fuel,
) -> Result<Option<String>, Halted>
    requires few { length tokens.now < 2 ^ 32 }
    requires fuel { IsFuel fuel.old }
{
    let Ok((tree, end)) = type_name(alloc, tokens, 0, 0) else {
        return Ok(None);
    };
    if end as usize != tokens.len() {
        return Ok(None);
    }
    let Typed { ty, notes } = declared_type(alloc, &tree.data_type, scope, fuel)?;
    let whole = with_unpacked(alloc, &ty, &tree.declarator.dimensions, scope, fuel)?;
    let mut out = String::new(alloc);
    spell(&mut out, &print(alloc, &whole.ty)?)?;
    notes_text(&mut out, notes.items())?;
    notes_text(&mut out, whole.notes.items())?;
    Ok(Some(out))
}

/// A type as it is printed, and what is said of it.
fn typed_text(alloc: Global, typed: &Typed) -> Result<String, NoMemory> {
    let mut out = String::new(alloc);
    spell(&mut out, &print(alloc, &typed.ty)?)?;
    notes_text(&mut out, typed.notes.items())?;
    Ok(out)
}

/// How long a type is as it is printed, and of how many faults something is said.
fn length_text(alloc: Global, typed: &Typed) -> Result<String, NoMemory> {
    let (bytes, notes) = (print(alloc, &typed.ty)?.len(), typed.notes.items().len());
    format!(in alloc; "{bytes} bytes, {notes} notes")
}

/// Adds what is said.
fn notes_text(out: &mut String, notes: &[Note]) -> Result<(), NoMemory> {
    for note in notes {
        out.push_str(" / ")?;
        note_text(out, note)?;
    }
    Ok(())
}
