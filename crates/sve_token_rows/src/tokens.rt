//! Rows of tokens (IEEE 1800-2017, clause 5).
//!
//! - `tokens TEXT`: the tokens of a text that is one file, each with its kind, its first byte and the byte behind its last. One
//!   that is not copied as it stands is followed by how many bytes its spelling and its text have.
//! - `pieces BYTES FILE OFFSET copied | BYTES FILE OFFSET written | ..`: the tokens of a text of pieces, each with its length, its
//!   place and how it is made.
//! - `words`: how many keywords there are, and of how many the kind is a keyword's, but an identifier's where the word is escaped,
//!   goes on with `_`, or begins with a capital.
use std::alloc::Global;
use sve_bytes::{Keyword, List, NoMemory, keywords_from};
use sve_lex::lex;
use sve_origin::{Expanded, Output};
use sve_row::{Table, add_kind, add_number, decoded, fields_of, name_of, offset_of, spell};
use sve_token::{Kind, Token};

/// The rows of tokens.
#[derive(Clone, Copy)]
pub struct Tokens;

impl Table for Tokens {
    fn answer(&self, alloc: Global, kind: &str, row: &str) -> Result<Option<String>, NoMemory> {
        match kind {
            "tokens" => tokens_row(alloc, row),
            "pieces" => pieces_row(alloc, row),
            "words" => words_row(alloc),
            _ => Ok(None),
        }
    }
}

/// The tokens of a text of pieces.
fn tokens_of(alloc: Global, output: Output) -> Result<List<Token>, NoMemory> {
    let diags = List::of(Vec::new(alloc));
    let net_types = List::of(Vec::new(alloc));
    lex(alloc, &Expanded::of(output, diags, net_types))
}

/// Adds a piece of 1 to 1,000,000 bytes from a file, and says whether it is one.
fn is_added(
    alloc: Global,
    output: &mut Output,
    piece: &[u8],
    file: &str,
    offset: u32,
    copied: bool,
) -> Result<bool, NoMemory> {
    let total = output.len();
    let Some(file) = name_of(alloc, file.as_bytes())? else {
        return Ok(false);
    };
    if piece.is_empty() || piece.len() > 1_000_000 || total > 1_000_000 || offset > 1_000_000 {
        return Ok(false);
    }
    output.push(piece, &file, offset, copied)?;
    Ok(true)
}

/// The tokens of a text that is one file.
fn tokens_in(alloc: Global, text: &[u8]) -> Result<List<Token>, NoMemory> {
    let mut output = Output::new(alloc);
    let _is_some = is_added(alloc, &mut output, text, "a.sv", 0, true)?;
    tokens_of(alloc, output)
}

/// Whether a token is spelled as the text is at its place, and copied from there.
fn is_as_it_stands(token: &Token, text: &[u8]) -> bool {
    let from = token.place.offset as usize;
    let to = from.wrapping_add(token.spelling.bytes().len());
    text.get(from..to) == Some(token.spelling.bytes())
        && token.text.items().is_empty()
        && token.copied
}

/// Adds the kind of a token, and where it stands.
fn add_range(out: &mut String, token: &Token) -> Result<(), NoMemory> {
    let from = token.place.offset as usize;
    add_kind(out, token.kind)?;
    out.push(' ')?;
    add_number(out, from)?;
    out.push('-')?;
    add_number(out, from.wrapping_add(token.spelling.bytes().len()))
}

/// Adds a token of a text, with its kind and where it stands.
fn add_token(out: &mut String, token: &Token, text: &[u8]) -> Result<(), NoMemory> {
    add_range(out, token)?;
    if is_as_it_stands(token, text) {
        return Ok(());
    }
    out.push_str(" of ")?;
    add_number(out, token.text.items().len())
}

/// The tokens of a text, each with its kind and where it stands.
fn tokens_text(alloc: Global, tokens: &[Token], text: &[u8]) -> Result<String, NoMemory> {
    let mut out = String::new(alloc);
    for token in tokens {
        if !out.is_empty() {
            out.push_str(", ")?;
        }
        add_token(&mut out, token, text)?;
    }
    if out.is_empty() {
        out.push_str("none")?;
    }
    Ok(out)
}

/// The answer to a row `tokens`.
fn tokens_row(alloc: Global, row: &str) -> Result<Option<String>, NoMemory> {
    let text = decoded(alloc, row)?;
    let tokens = tokens_in(alloc, &text)?;
    Ok(Some(tokens_text(alloc, tokens.items(), &text)?))
}

/// Adds the piece that a field writes, and says whether there is one.
fn is_field_added(alloc: Global, output: &mut Output, field: &str) -> Result<bool, NoMemory> {
    let (rest, how) = field.rsplit_once(' ').unwrap_or((field, ""));
    let (rest, offset) = rest.rsplit_once(' ').unwrap_or((rest, ""));
    let (bytes, file) = rest.rsplit_once(' ').unwrap_or((rest, ""));
    let Some(offset) = offset_of(offset) else {
        return Ok(false);
    };
    let bytes = decoded(alloc, bytes)?;
    is_added(alloc, output, &bytes, file, offset, how == "copied")
}

/// Adds a token, with its place and how it is made.
fn add_place(out: &mut String, token: &Token) -> Result<(), NoMemory> {
    spell(out, token.spelling.bytes())?;
    out.push(' ')?;
    spell(out, token.place.file.bytes())?;
    out.push(' ')?;
    add_number(out, token.place.offset as usize)?;
    out.push_str(if token.copied { " copied" } else { " written" })
}

/// The tokens of a text of pieces, each with its place and how it is made.
fn places_text(alloc: Global, tokens: &[Token]) -> Result<String, NoMemory> {
    let mut out = String::new(alloc);
    for token in tokens {
        if !out.is_empty() {
            out.push_str(", ")?;
        }
        add_place(&mut out, token)?;
    }
    Ok(out)
}

/// The answer to a row `pieces`.
fn pieces_row(alloc: Global, row: &str) -> Result<Option<String>, NoMemory> {
    let mut output = Output::new(alloc);
    for field in &fields_of(alloc, row)? {
        if !is_field_added(alloc, &mut output, field)? {
            return Ok(None);
        }
    }
    let tokens = tokens_of(alloc, output)?;
    Ok(Some(places_text(alloc, tokens.items())?))
}

/// Whether a text is one identifier.
fn is_identifier(alloc: Global, text: &[u8]) -> Result<bool, NoMemory> {
    let tokens = tokens_in(alloc, text)?;
    Ok(match tokens.items() {
        [token] => token.kind == Kind::Identifier && is_as_it_stands(token, text),
        _ => false,
    })
}

/// Whether a word is one keyword.
fn is_keyword(alloc: Global, word: &[u8]) -> Result<bool, NoMemory> {
    let tokens = tokens_in(alloc, word)?;
    Ok(match tokens.items() {
        [token] => matches!(token.kind, Kind::Keyword(_) | Kind::Reserved(_)),
        _ => false,
    })
}

/// Whether a word with `_` behind it is an identifier.
fn is_longer_one(alloc: Global, word: &[u8]) -> Result<bool, NoMemory> {
    let mut longer = Vec::from_slice(alloc, word)?;
    longer.push(b'_')?;
    is_identifier(alloc, &longer)
}

/// Whether a word behind a backslash is an identifier.
fn is_escaped_one(alloc: Global, word: &[u8]) -> Result<bool, NoMemory> {
    let mut escaped = vec![in alloc; b'\\']?;
    escaped.extend_from_slice(word)?;
    is_identifier(alloc, &escaped)
}

/// Whether a word with a capital is an identifier.
fn is_capital_one(alloc: Global, word: &[u8]) -> Result<bool, NoMemory> {
    let mut capital = Vec::from_slice(alloc, word)?;
    if let Some(byte) = capital.first_mut() {
        *byte = byte.to_ascii_uppercase();
    }
    is_identifier(alloc, &capital)
}

/// Whether a keyword is one by itself, and an identifier escaped, with a byte more, or with a capital.
fn is_told_apart(alloc: Global, word: &[u8]) -> Result<bool, NoMemory> {
    Ok(
        is_keyword(alloc, word)?
            && is_longer_one(alloc, word)?
            && is_escaped_one(alloc, word)?
            && is_capital_one(alloc, word)?,
    )
}

/// How many of these words are told apart.
fn told_apart(alloc: Global, words: &[Keyword]) -> Result<usize, NoMemory> {
    let mut count = 0usize;
    for word in words {
        if is_told_apart(alloc, word.text)? {
            count = count.wrapping_add(1);
        }
    }
    Ok(count)
}

/// The answer to a row `words`.
fn words_row(alloc: Global) -> Result<Option<String>, NoMemory> {
    let mut words = 0usize;
    let mut apart = 0usize;
    for first in 0..=255u8 {
        let here = keywords_from(first);
        words = words.wrapping_add(here.len());
        apart = apart.wrapping_add(told_apart(alloc, here)?);
    }
    Ok(Some(counts_text(alloc, words, apart)?))
}

/// How many keywords there are, and how many are told apart.
fn counts_text(alloc: Global, words: usize, apart: usize) -> Result<String, NoMemory> {
    let mut out = String::new(alloc);
    add_number(&mut out, words)?;
    out.push_str(", ")?;
    add_number(&mut out, apart)?;
    out.push_str(" told apart")?;
    Ok(out)
}
