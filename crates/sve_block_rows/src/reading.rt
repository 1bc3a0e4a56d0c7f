//! The element of a text.
use std::alloc::{AllocError, Global};
use sve_bytes::{BadName, List, Name, NoMemory};
use sve_element::element;
use sve_grammar::Stop;
use sve_lex::lex;
use sve_origin::{Expanded, Output};
use sve_token::Token;
use sve_tree::Element;

/// The tokens of a text that is one file.
fn tokens_of(alloc: Global, text: &[u8]) -> Result<List<Token>, NoMemory> {
    let mut output = Output::new(alloc);
    let file = match Name::of(alloc, b"a.sv") {
        Ok(file) => file,
        Err(BadName::NoMemory) => return Err(AllocError),
        Err(_) => return Ok(List::of(Vec::new(alloc))),
    };
    if !text.is_empty() && text.len() < 1_000_000 {
        output.push(text, &file, 0, true)?;
    }
    let diags = List::of(Vec::new(alloc));
    let net_types = List::of(Vec::new(alloc));
    lex(alloc, &Expanded::of(output, diags, net_types))
}

/// The element of a text, where the text is one chunk that the grammar accepts.
pub fn element_of(alloc: Global, text: &[u8]) -> Result<Option<Element>, NoMemory> {
    let tokens = tokens_of(alloc, text)?;
    if tokens.items().len() >= 1_000_000 {
        return Ok(None);
    }
    match element(alloc, tokens.items()) {
        Ok(tree) => Ok(Some(tree)),
        Err(Stop::NoMemory) => Err(AllocError),
        Err(Stop::At { .. }) => Ok(None),
    }
}
