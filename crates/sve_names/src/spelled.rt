//! Words of a step, and how answers spell what they tell.
use std::alloc::Global;
use sve_bytes::{Name, NoMemory};
use sve_row::{add_number, name_of, offset_of, spell};
use sve_scope::{Declared, Entered, Found, Through};

/// The word at a place, or nothing behind the last.
pub fn word_at<'a>(words: &[&'a str], place: usize) -> &'a str {
    words.get(place).copied().unwrap_or("")
}

/// The name at a place.
pub fn name_at(alloc: Global, words: &[&str], place: usize) -> Result<Option<Name>, NoMemory> {
    name_of(alloc, word_at(words, place).as_bytes())
}

/// The number at a place.
pub fn number_at(words: &[&str], place: usize) -> Option<u32> {
    offset_of(word_at(words, place))
}

/// Parts an answer from the one in front of it.
pub fn part(out: &mut String) -> Result<(), NoMemory> {
    if out.is_empty() {
        return Ok(());
    }
    out.push_str("; ")
}

/// Adds a name.
fn add_name(out: &mut String, name: &Name) -> Result<(), NoMemory> {
    spell(out, name.bytes())
}

/// Adds the place of a declaration.
pub fn add_place(out: &mut String, declared: &Declared) -> Result<(), NoMemory> {
    add_name(out, &declared.at.file)?;
    out.push(':')?;
    add_number(out, declared.at.chunk as usize)?;
    out.push(':')?;
    add_number(out, declared.at.token as usize)
}

/// Adds how a declaration or an import came in.
pub fn add_entered(out: &mut String, entered: Entered) -> Result<(), NoMemory> {
    part(out)?;
    out.push_str(match entered {
        Entered::New => "new",
        Entered::Again => "again",
        Entered::Clashing => "clash",
    })
}

/// Adds an imported name, and the scope whose import of all names it came through.
fn add_imported(
    out: &mut String,
    from: &Name,
    name: &Name,
    through: Through,
) -> Result<(), NoMemory> {
    add_name(out, from)?;
    out.push_str("::")?;
    add_name(out, name)?;
    match through {
        Through::Name => Ok(()),
        Through::Package(place) => {
            out.push('*')?;
            add_number(out, place)
        }
    }
}

/// Adds the names of two packages.
fn add_two(out: &mut String, first: &Name, second: &Name) -> Result<(), NoMemory> {
    add_name(out, first)?;
    out.push_str(" or ")?;
    add_name(out, second)
}

/// Adds what a name stands for.
pub fn add_found(out: &mut String, found: Found) -> Result<(), NoMemory> {
    part(out)?;
    match found {
        Found::Local(declared) => add_place(out, declared),
        Found::Imported(from, name, through) => add_imported(out, from, name, through),
        Found::Two(first, second) => add_two(out, first, second),
        Found::None => out.push_str("nothing"),
    }
}

/// The place in the chain of the scope whose import of all names a use took.
pub fn taken_at(found: Found) -> Option<usize> {
    match found {
        Found::Imported(_, _, Through::Package(place)) => Some(place),
        _ => None,
    }
}
