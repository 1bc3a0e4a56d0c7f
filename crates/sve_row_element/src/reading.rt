use std::alloc::{AllocError, Global};
use sve_bytes::NoMemory;
use sve_element::element;
use sve_grammar::Stop;
use sve_show::tokens_of;
use sve_tree::Element;

/// The element of a text, where the text is one chunk of fewer than 1,000,000 tokens that the grammar accepts.
pub fn element_of(alloc: Global, text: &[u8]) -> Result<Option<Element>, NoMemory> {
    let tokens = tokens_of(alloc, text)?;
    if tokens.items().len() >= 1_000_000 {
        return Ok(None);
    }
    match element(alloc, tokens.items()) {
        Ok(tree) => Ok(Some(tree)),
        Err(Stop::NoMemory) => Err(AllocError),
        Err(Stop::At { .. }) => Ok(None),
    }
}
