//! Rows of keywords and operators.
//!
//! - `keyword BYTES`: the kind of the keyword, or `none`.
//! - `keywords`: how many keywords there are, and of how many the kind is that of the keyword alone.
//! - `operators B`: the operators that begin with this byte, those first that are sought first; without a byte how many there
//!   are in all.
use std::alloc::Global;
use sve_bytes::{Keyword, NoMemory, is_keyword, keywords_from};
use sve_row::{add_kind, add_number, decoded, spell};
use sve_token::{Kind, Operator, keyword, operators_from};

/// What a kind is called.
fn kind_text(alloc: Global, kind: Kind) -> Result<String, NoMemory> {
    let mut out = String::new(alloc);
    add_kind(&mut out, kind)?;
    Ok(out)
}

/// The answer to a row `keyword`.
pub fn keyword_row(alloc: Global, row: &str) -> Result<Option<String>, NoMemory> {
    let bytes = decoded(alloc, row)?;
    match keyword(&bytes) {
        Some(kind) => Ok(Some(kind_text(alloc, kind)?)),
        None if is_keyword(&bytes) => Ok(Some(String::from_str(alloc, "a word without a kind")?)),
        None => Ok(Some(String::from_str(alloc, "none")?)),
    }
}

/// Whether a keyword has a kind that no other of these has.
fn is_told_apart(word: &Keyword, words: &[Keyword]) -> bool {
    let kind = keyword(word.text);
    let mut alike = 0u32;
    for other in words {
        if keyword(other.text) == kind {
            alike = alike.wrapping_add(1);
        }
    }
    kind.is_some() && alike == 1
}

/// How many of these keywords have a kind that no other of them has.
fn told_apart(words: &[Keyword]) -> usize {
    let mut count = 0usize;
    for word in words {
        if is_told_apart(word, words) {
            count = count.wrapping_add(1);
        }
    }
    count
}

/// The answer to a row `keywords`.
pub fn keywords_row(alloc: Global) -> Result<Option<String>, NoMemory> {
    let mut words = 0usize;
    let mut alone = 0usize;
    for first in 0..=255u8 {
        let here = keywords_from(first);
        words = words.wrapping_add(here.len());
        alone = alone.wrapping_add(told_apart(here));
    }
    Ok(Some(counts_text(alloc, words, alone)?))
}

/// How many keywords there are, and how many are told apart.
fn counts_text(alloc: Global, words: usize, alone: usize) -> Result<String, NoMemory> {
    let mut out = String::new(alloc);
    add_number(&mut out, words)?;
    out.push_str(", ")?;
    add_number(&mut out, alone)?;
    out.push_str(" told apart")?;
    Ok(out)
}

/// How many operators there are.
fn operator_count() -> usize {
    let mut count = 0usize;
    for first in 0..=255u8 {
        count = count.wrapping_add(operators_from(first).len());
    }
    count
}

/// Adds an operator that begins with this byte.
fn add_operator(out: &mut String, first: u8, operator: &Operator) -> Result<(), NoMemory> {
    if !out.is_empty() {
        out.push_str(", ")?;
    }
    spell(out, &[first])?;
    spell(out, operator.rest)?;
    out.push(' ')?;
    add_kind(out, operator.kind)
}

/// The operators that begin with a byte.
fn operators_text(alloc: Global, first: u8) -> Result<String, NoMemory> {
    let mut out = String::new(alloc);
    for operator in operators_from(first) {
        add_operator(&mut out, first, operator)?;
    }
    Ok(out)
}

/// How many operators there are, as text.
fn count_text(alloc: Global) -> Result<String, NoMemory> {
    let mut out = String::new(alloc);
    add_number(&mut out, operator_count())?;
    Ok(out)
}

/// The answer to a row `operators`.
pub fn operators_row(alloc: Global, row: &str) -> Result<Option<String>, NoMemory> {
    let answer = match decoded(alloc, row)?.first() {
        Some(first) => operators_text(alloc, *first)?,
        None => count_text(alloc)?,
    };
    Ok(Some(answer))
}
