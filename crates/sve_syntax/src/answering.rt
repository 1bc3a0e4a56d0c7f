//! The answer to a line of the table.
use crate::outcome::outcome_text;
use crate::question::{Question, question_of};
use crate::reading::read_part;
use std::alloc::Global;
use sve_bytes::NoMemory;
use sve_show::tokens_of;

/// The line with its answer. A line that begins with `#`, or has nothing on it, stands for itself.
pub fn answered(alloc: Global, line: &str) -> Result<String, NoMemory> {
    if line.is_empty() || line.starts_with('#') {
        return String::from_str(alloc, line);
    }
    let answer = match question_of(alloc, line)? {
        Some(question) => answer(alloc, &question)?,
        None => String::from_str(alloc, "no such line")?,
    };
    format!(in alloc; "{line} => {answer}")
}

fn answer(alloc: Global, question: &Question) -> Result<String, NoMemory> {
    let list = tokens_of(alloc, question.text.as_bytes())?;
    let tokens = list.items();
    let from = question.from;
    if tokens.len() > u32::MAX as usize || from as usize > tokens.len() {
        return String::from_str(alloc, "no such place");
    }
    let outcome = read_part(alloc, question.part, tokens, from)?;
    outcome_text(alloc, &outcome, tokens.len(), question.is_deep)
}
