//! What a row asks for.
use std::alloc::Global;
use sve_bytes::{List, Name, NoMemory};
use sve_row::{decoded, name_of, offset_of, value_of, word};
use sve_spec::{FaceGiven, Given, Spec};
use sve_types::Value;

/// What a row asks for.
#[derive(Drop)]
pub struct Asked {
    /// The specialization.
    pub spec: Spec,
    /// What it may cost.
    pub most: u32,
    /// The token of its chunk from which on the default net type is `none`.
    pub none: u32,
}

/// What a word gives a parameter.
fn given_of(alloc: Global, word: &str) -> Result<Option<Given>, NoMemory> {
    if word == "-" {
        return Ok(Some(Given::Default));
    }
    if word == "?" {
        return Ok(Some(Given::Bad));
    }
    if let Some(text) = word.strip_prefix("\"") {
        let text = decoded(alloc, text.trim_end_matches('"'))?;
        return Ok(Some(Given::Value(Value::Text(List::of(text)))));
    }
    match value_of(word) {
        Some(bits) => Ok(Some(Given::Value(Value::Bits(bits)))),
        None => Ok(None),
    }
}

/// What words with commas between them give parameters, unless one is of no form.
fn all_given(alloc: Global, words: &str) -> Result<Option<Vec<Given>>, NoMemory> {
    let mut given = Vec::new(alloc);
    for word in words.split(',') {
        match given_of(alloc, word)? {
            Some(one) => given.push(one)?,
            None => return Ok(None),
        }
    }
    Ok(Some(given))
}

/// What a text between `#(` and `)` gives parameters; where it has not this form, nothing.
fn given_in(alloc: Global, text: &str) -> Result<Option<Vec<Given>>, NoMemory> {
    if text.is_empty() {
        return Ok(Some(Vec::new(alloc)));
    }
    match text.strip_prefix("#(") {
        Some(words) => all_given(alloc, words.trim_end_matches(')')),
        None => Ok(None),
    }
}

/// The interface that a text names, with a modport or without.
fn interface_in(alloc: Global, text: &str) -> Result<(Option<Name>, Option<Name>), NoMemory> {
    match text.split_once('.') {
        Some((interface, modport)) => Ok((
            name_of(alloc, interface.as_bytes())?,
            name_of(alloc, modport.as_bytes())?,
        )),
        None => Ok((name_of(alloc, text.as_bytes())?, None)),
    }
}

/// What a word gives an interface port, where it is `.PORT(INTERFACE)` or `.PORT(INTERFACE.MODPORT)`.
fn face_of(alloc: Global, word: &str) -> Result<Option<FaceGiven>, NoMemory> {
    let Some(text) = word.strip_prefix(".") else {
        return Ok(None);
    };
    let (port, rest) = text.split_once('(').unwrap_or((text, ""));
    let (interface, modport) = interface_in(alloc, rest.trim_end_matches(')'))?;
    let (Some(port), Some(interface)) = (name_of(alloc, port.as_bytes())?, interface) else {
        return Ok(None);
    };
    Ok(Some(FaceGiven {
        port,
        interface,
        modport,
    }))
}

/// What words give interface ports.
fn faces_in(alloc: Global, words: &str) -> Result<Vec<FaceGiven>, NoMemory> {
    let mut faces = Vec::new(alloc);
    for word in words.split(' ') {
        if let Some(face) = face_of(alloc, word)? {
            faces.push(face)?;
        }
    }
    Ok(faces)
}

/// The number behind this word, where it stands among words, and else another.
fn number_behind(words: &str, key: &str, otherwise: u32) -> u32 {
    let mut is_next = false;
    for each in words.split(' ') {
        if is_next {
            return offset_of(each).unwrap_or(otherwise);
        }
        is_next = each == key;
    }
    otherwise
}

/// What stands behind the name, parted into what is given and the rest.
fn parted(rest: &str) -> (&str, &str) {
    if rest.starts_with("#(") {
        return word(rest);
    }
    ("", rest)
}

/// What a row asks for of a definition of this name.
fn asked_of(alloc: Global, definition: Name, rest: &str) -> Result<Option<Asked>, NoMemory> {
    let (given, rest) = parted(rest);
    match given_in(alloc, given)? {
        Some(given) => Ok(Some(Asked {
            spec: Spec {
                definition,
                values: List::of(given),
                faces: List::of(faces_in(alloc, rest)?),
            },
            most: number_behind(rest, "most", u32::MAX),
            none: number_behind(rest, "none", u32::MAX),
        })),
        None => Ok(None),
    }
}

/// What the first field of a row asks for, where it is of the form.
pub fn asked_in(alloc: Global, field: &str) -> Result<Option<Asked>, NoMemory> {
    let (kind, rest) = word(field);
    if kind != "body" {
        return Ok(None);
    }
    let (name, rest) = word(rest);
    match name_of(alloc, name.as_bytes())? {
        Some(name) => asked_of(alloc, name, rest),
        None => Ok(None),
    }
}
