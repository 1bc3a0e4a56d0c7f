//! Values, counts and what is said, as text.
use std::alloc::{AllocError, Global};
use sve_bytes::NoMemory;
use sve_diag::Note;
use sve_fault::Halted;
use sve_given::note_text;
use sve_row::{add_number, spell};
use sve_types::Value;
use sve_value::print;

/// Adds what stands between two things, where something stands already.
pub fn separate(out: &mut String, separator: &str) -> Result<(), NoMemory> {
    if out.is_empty() {
        Ok(())
    } else {
        out.push_str(separator)
    }
}

/// Adds what is said, behind ` / ` each: the code, the number of the token, and what is named.
pub fn notes_text(out: &mut String, notes: &[Note]) -> Result<(), NoMemory> {
    for note in notes {
        out.push_str(" / ")?;
        note_text(out, note)?;
    }
    Ok(())
}

/// Adds `none` where nothing stands yet, and what is said.
pub fn end_text(out: &mut String, notes: &[Note]) -> Result<(), NoMemory> {
    if out.is_empty() {
        out.push_str("none")?;
    }
    notes_text(out, notes)
}

/// A text with the count of nodes behind ` | `, or `over` where the count passed its most.
pub fn counted(
    alloc: Global,
    text: Result<Option<String>, Halted>,
    used: u64,
) -> Result<Option<String>, NoMemory> {
    match text {
        Ok(Some(text)) => {
            let mut text = text;
            text.push_str(" | ")?;
            add_number(&mut text, used as usize)?;
            Ok(Some(text))
        }
        Ok(None) => Ok(None),
        Err(Halted::Over) => Ok(Some(String::from_str(alloc, "over")?)),
        Err(Halted::NoMemory) => Err(AllocError),
    }
}

/// Adds a value: bits as they are printed, a string in quotes, and `type` for one that is a type.
pub fn value_text(alloc: Global, out: &mut String, value: &Value) -> Result<(), NoMemory> {
    match value {
        Value::Bits(bits) => spell(out, print(alloc, *bits)?.as_slice()),
        Value::Text(text) => {
            out.push('"')?;
            spell(out, text.items())?;
            out.push('"')
        }
        Value::OfType(_) => out.push_str("type"),
    }
}
