//! What is said, as text.
use sve_bytes::NoMemory;
use sve_diag::Note;
use sve_row::{add_number, spell};

/// Adds what is said: the code, the number of the token, and what is named.
pub fn note_text(out: &mut String, note: &Note) -> Result<(), NoMemory> {
    spell(out, note.code.spelling())?;
    out.push_str(" at ")?;
    add_number(out, note.token as usize)?;
    match &note.arg {
        Some(arg) => {
            out.push(' ')?;
            spell(out, arg.bytes())
        }
        None => Ok(()),
    }
}
