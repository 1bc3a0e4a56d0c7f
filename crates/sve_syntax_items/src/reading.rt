//! The parsers, each called for the part that a line names.
ghost use Rattle.std.specs.Prelude.{◌<◌, ◌^◌, length};

use std::alloc::{AllocError, Global};
use std::fmt::Write;
use sve_bytes::NoMemory;
use sve_element::element;
use sve_grammar::Stop;
use sve_parse_item::item;
use sve_parse_stmt::{function, stmt};
use sve_show::{Writer, stop_text};
use sve_show_items::{write_element, write_function, write_item, write_statement};
use sve_token::Token;

/// Reads the part from the first token on, and tells the tree, or only that there is one; or the stop.
pub fn read_part(
    alloc: Global,
    part: &str,
    tokens: &[Token],
    is_deep: bool,
) -> Result<String, NoMemory>
    requires few { length tokens.now < 2 ^ 32 }
{
    match part {
        "stmt" => read_statement(alloc, tokens, is_deep),
        "function" => read_function(alloc, tokens, is_deep),
        "item" => read_item(alloc, tokens, is_deep),
        "chunk" => read_chunk(alloc, tokens, is_deep),
        _ => String::from_str(alloc, "no such line"),
    }
}

fn read_statement(alloc: Global, tokens: &[Token], is_deep: bool) -> Result<String, NoMemory>
    requires few { length tokens.now < 2 ^ 32 }
{
    match stmt(alloc, tokens, 0, 0) {
        Ok((tree, end)) => {
            let mut w = Writer::new(alloc, tokens, 0);
            write_statement(&mut w, &tree);
            tree_text(alloc, w, end, tokens.len(), is_deep)
        }
        Err(stop) => verdict_text(alloc, stop),
    }
}

fn read_function(alloc: Global, tokens: &[Token], is_deep: bool) -> Result<String, NoMemory>
    requires few { length tokens.now < 2 ^ 32 }
{
    match function(alloc, tokens, 0, 0) {
        Ok((tree, end)) => {
            let mut w = Writer::new(alloc, tokens, 0);
            write_function(&mut w, &tree);
            tree_text(alloc, w, end, tokens.len(), is_deep)
        }
        Err(stop) => verdict_text(alloc, stop),
    }
}

fn read_item(alloc: Global, tokens: &[Token], is_deep: bool) -> Result<String, NoMemory>
    requires few { length tokens.now < 2 ^ 32 }
{
    match item(alloc, tokens, 0, 0) {
        Ok((tree, end)) => {
            let mut w = Writer::new(alloc, tokens, 0);
            write_item(&mut w, &tree);
            tree_text(alloc, w, end, tokens.len(), is_deep)
        }
        Err(stop) => verdict_text(alloc, stop),
    }
}

fn read_chunk(alloc: Global, tokens: &[Token], is_deep: bool) -> Result<String, NoMemory>
    requires few { length tokens.now < 2 ^ 32 }
{
    match element(alloc, tokens) {
        Ok(tree) => {
            let mut w = Writer::new(alloc, tokens, 0);
            write_element(&mut w, &tree);
            tree_text(alloc, w, tokens.len() as u32, tokens.len(), is_deep)
        }
        Err(stop) => verdict_text(alloc, stop),
    }
}

/// The tree as it was written, or only that there is one, and where it ends if that is not behind so many tokens.
fn tree_text(
    alloc: Global,
    w: Writer<'_>,
    end: u32,
    tokens: usize,
    is_deep: bool,
) -> Result<String, NoMemory> {
    let written = w.finish()?;
    let is_whole = written.in_order && written.end == end;
    let mut text = if is_deep {
        String::from_str(alloc, "accept")?
    } else {
        written.text
    };
    if end as usize != tokens {
        write!(text, " rest at {end}")?;
    }
    if !is_whole {
        text.push_str(" out of order")?;
    }
    Ok(text)
}

/// The stop as it is printed, where memory did not run out.
fn verdict_text(alloc: Global, stop: Stop) -> Result<String, NoMemory> {
    match stop {
        Stop::At { index, deep } => stop_text(alloc, index, deep),
        Stop::NoMemory => Err(AllocError),
    }
}
