//! Rows of overrides.
use std::alloc::Global;
use sve_bytes::{List, Name, NoMemory};
use sve_param::{Gives, Override, give};
use sve_row::{name_of, value_of, words_of};
use sve_row_element::{end_text, separate, value_text};
use sve_show::cut;
use sve_spec::Given;
use sve_tree::Element;
use sve_types::Value;

/// What a word says that a parameter is given.
fn given_of(alloc: Global, text: &str) -> Result<Given, NoMemory> {
    if text == "bad" {
        return Ok(Given::Bad);
    }
    if let Some(rest) = text.strip_prefix('"') {
        let bytes = Vec::from_slice(alloc, rest.trim_end_matches('"').as_bytes())?;
        return Ok(Given::Value(Value::Text(List::of(bytes))));
    }
    match value_of(text) {
        Some(bits) => Ok(Given::Value(Value::Bits(bits))),
        None => Ok(Given::Default),
    }
}

/// The override that a word says, at this token.
fn override_of(alloc: Global, word: &str, token: u32) -> Result<Override, NoMemory> {
    let (name, value) = cut(word, '=');
    Ok(Override {
        name: name_of(alloc, name.as_bytes())?,
        given: given_of(alloc, value)?,
        token,
    })
}

/// The overrides that words say.
fn overrides_of(alloc: Global, text: &str) -> Result<Vec<Override>, NoMemory> {
    let mut overrides = Vec::new(alloc);
    let mut token: u32 = 100;
    for word in words_of(alloc, text)? {
        overrides.push(override_of(alloc, word, token)?)?;
        token = token.saturating_add(1);
    }
    Ok(overrides)
}

/// What the overrides that words say give the parameters of an element.
pub fn given_by(
    alloc: Global,
    file: &Name,
    tree: &Element,
    words: &str,
) -> Result<Gives, NoMemory> {
    give(alloc, tree, overrides_of(alloc, words)?, file, 0, 99)
}

/// Adds what a parameter is given.
fn given_text(alloc: Global, out: &mut String, given: &Given) -> Result<(), NoMemory> {
    match given {
        Given::Default => out.push_str("default"),
        Given::Bad => out.push_str("bad"),
        Given::Value(value) => value_text(alloc, out, value),
    }
}

/// What parameters are given, and what is said.
fn gives_text(alloc: Global, gives: &Gives) -> Result<String, NoMemory> {
    let mut out = String::new(alloc);
    for given in gives.given.items() {
        separate(&mut out, " ")?;
        given_text(alloc, &mut out, given)?;
    }
    end_text(&mut out, gives.notes.items())?;
    Ok(out)
}

/// The answer to a row `give`.
pub fn give_row(
    alloc: Global,
    file: &Name,
    tree: &Element,
    words: &str,
) -> Result<Option<String>, NoMemory> {
    let gives = given_by(alloc, file, tree, words)?;
    Ok(Some(gives_text(alloc, &gives)?))
}
