//! A table of chunks, read by the grammar's machine. Each line of the input is answered by one line: the line itself, `=>`, and
//! what came of it.
//!
//! - `run TEXT` asks the machine about the text as a chunk. The answer is `accept`, or `stop at N` with the number of the next
//!   token, counted from 0, and ` deep` where only the depth stands against going on.
//! - `deep run N FRONT / OPEN / MIDDLE / CLOSE / BACK` asks about the text that has OPEN and CLOSE N times each.
//! - A line with nothing on it, or that begins with `#`, is answered by itself.
#![tactic(auto)]

use std::alloc::{AllocError, Global};
use std::io;
use std::io::{BufRead, BufReader, BufWriter, Write};
use sve_bytes::NoMemory;
use sve_run::{Verdict, run};
use sve_show::{deep_text, stop_text, tokens_of};

/// The line with its answer. A line that begins with `#`, or has nothing on it, stands for itself.
fn answered(alloc: Global, line: &str) -> Result<String, NoMemory> {
    if line.is_empty() || line.starts_with('#') {
        return String::from_str(alloc, line);
    }
    let answer = match text_of(alloc, line)? {
        Some(text) => verdict_of(alloc, text.as_bytes())?,
        None => String::from_str(alloc, "no such line")?,
    };
    format!(in alloc; "{line} => {answer}")
}

/// The chunk that a line asks about, or nothing where it is of no form.
fn text_of(alloc: Global, line: &str) -> Result<Option<String>, NoMemory> {
    if let Some(rest) = line.strip_prefix("deep run ") {
        return deep_text(alloc, rest);
    }
    match line.strip_prefix("run") {
        Some(text) => Ok(Some(String::from_str(alloc, text)?)),
        None => Ok(None),
    }
}

/// What the machine says of a chunk.
fn verdict_of(alloc: Global, text: &[u8]) -> Result<String, NoMemory> {
    let list = tokens_of(alloc, text)?;
    let tokens = list.items();
    if tokens.len() > u32::MAX as usize {
        return Err(AllocError);
    }
    match run(alloc, tokens)? {
        Verdict::Accept => String::from_str(alloc, "accept"),
        Verdict::Stop { index, deep } => stop_text(alloc, index, deep),
    }
}

fn main(rt: HostRuntime) -> io::Result<()> {
    let alloc = rt.alloc();
    let mut out = BufWriter::new(alloc, io::writer(&rt))?;
    for line in BufReader::new(alloc, rt.reader())?.lines(alloc) {
        let line = line?;
        let text = answered(alloc, line.as_str())?;
        writeln!(out, "{text}")?;
    }
    out.flush()
}
