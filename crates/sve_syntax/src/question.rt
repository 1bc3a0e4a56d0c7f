//! The lines of the table: what they ask.
use crate::part::{Part, part_named};
use std::alloc::Global;
use sve_bytes::NoMemory;
use sve_show::{cut, deep_text};

/// What a line asks.
#[derive(Drop)]
pub struct Question {
    /// What is to be read.
    pub part: Part,
    /// The text that it is read from.
    pub text: String,
    /// The token to begin with, counted from 0.
    pub from: u32,
    /// Whether the text is a repetition, of which only the verdict is told.
    pub is_deep: bool,
}

/// What a line asks, or nothing where it is of no form.
pub fn question_of(alloc: Global, line: &str) -> Result<Option<Question>, NoMemory> {
    let (head, text) = cut(line, ' ');
    if head == "deep" {
        return deep_question(alloc, text);
    }
    let (word, number) = cut(head, '@');
    let Some(part) = part_named(word) else {
        return Ok(None);
    };
    Ok(Some(Question {
        part,
        text: String::from_str(alloc, text)?,
        from: number.parse::<u32>().unwrap_or(0),
        is_deep: false,
    }))
}

/// The question of a line `deep PART N FRONT / OPEN / MIDDLE / CLOSE / BACK`, behind its first word.
fn deep_question(alloc: Global, line: &str) -> Result<Option<Question>, NoMemory> {
    let (word, rest) = cut(line, ' ');
    let Some(part) = part_named(word) else {
        return Ok(None);
    };
    let Some(text) = deep_text(alloc, rest)? else {
        return Ok(None);
    };
    Ok(Some(Question {
        part,
        text,
        from: 0,
        is_deep: true,
    }))
}
