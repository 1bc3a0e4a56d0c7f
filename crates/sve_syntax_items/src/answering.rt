//! The answer to a line of the table.
use crate::reading::read_part;
use std::alloc::{AllocError, Global};
use sve_bytes::NoMemory;
use sve_show::{cut, deep_text, tokens_of};

/// The line with its answer. A line that begins with `#`, or has nothing on it, stands for itself.
pub fn answered(alloc: Global, line: &str) -> Result<String, NoMemory> {
    if line.is_empty() || line.starts_with('#') {
        return String::from_str(alloc, line);
    }
    let answer = match line.strip_prefix("deep ") {
        Some(rest) => deep_answer(alloc, rest)?,
        None => plain_answer(alloc, line)?,
    };
    format!(in alloc; "{line} => {answer}")
}

/// The answer to a line `PART TEXT`.
fn plain_answer(alloc: Global, line: &str) -> Result<String, NoMemory> {
    let (part, text) = cut(line, ' ');
    answer(alloc, part, text, false)
}

/// The answer to a line `deep PART N FRONT / OPEN / MIDDLE / CLOSE / BACK`, behind its first word.
fn deep_answer(alloc: Global, line: &str) -> Result<String, NoMemory> {
    let (part, rest) = cut(line, ' ');
    match deep_text(alloc, rest)? {
        Some(text) => answer(alloc, part, text.as_str(), true),
        None => String::from_str(alloc, "no such line"),
    }
}

fn answer(alloc: Global, part: &str, text: &str, is_deep: bool) -> Result<String, NoMemory> {
    let list = tokens_of(alloc, text.as_bytes())?;
    let tokens = list.items();
    if tokens.len() > u32::MAX as usize {
        return Err(AllocError);
    }
    read_part(alloc, part, tokens, is_deep)
}
