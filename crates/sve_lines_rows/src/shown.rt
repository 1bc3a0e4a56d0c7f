//! What is shown of the lines of an answer: they are parted by ` / `.
use std::alloc::Global;
use std::fmt::Write;
use sve_bytes::{List, NoMemory};
use sve_report::Lines;
use sve_row::spell;

/// What is shown of the lines of an answer.
#[derive(Clone, Copy)]
pub enum Shown {
    /// All of them.
    All,
    /// How many there are, and the last.
    Last,
}

/// The lines, parted by ` / `.
pub fn all_lines(alloc: Global, lines: &[List<u8>]) -> Result<String, NoMemory> {
    let mut out = String::new(alloc);
    for (place, line) in lines.iter().enumerate() {
        if place > 0 {
            out.push_str(" / ")?;
        }
        spell(&mut out, line.items())?;
    }
    Ok(out)
}

/// How many lines there are, and the last.
fn last_line(alloc: Global, lines: &[List<u8>]) -> Result<String, NoMemory> {
    let count = lines.len();
    let mut out = format!(in alloc; "{count} lines, the last ")?;
    if let Some(last) = lines.last() {
        spell(&mut out, last.items())?;
    }
    Ok(out)
}

/// What is shown of an answer.
pub fn shown_lines(alloc: Global, lines: Lines, shown: Shown) -> Result<String, NoMemory> {
    let lines = lines.into_list(alloc)?;
    match shown {
        Shown::All => all_lines(alloc, lines.items()),
        Shown::Last => last_line(alloc, lines.items()),
    }
}
