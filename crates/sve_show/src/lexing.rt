use std::alloc::{AllocError, Global};
use sve_bytes::{List, Name, NoMemory};
use sve_lex::lex;
use sve_origin::{Expanded, Output};
use sve_token::Token;

/// The tokens of a text, as if a file of this text had been expanded. Of a text of 2^32 bytes or more there are none.
pub fn tokens_of(alloc: Global, text: &[u8]) -> Result<List<Token>, NoMemory> {
    let Ok(file) = Name::of(alloc, b"table") else {
        return Err(AllocError);
    };
    let mut output = Output::new(alloc);
    if !text.is_empty() && text.len() < 0xffff_ffff {
        output.push(text, &file, 0, true)?;
    }
    let diags = List::of(Vec::new(alloc));
    let net_types = List::of(Vec::new(alloc));
    lex(alloc, &Expanded::of(output, diags, net_types))
}
