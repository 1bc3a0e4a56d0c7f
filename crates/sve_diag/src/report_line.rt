ghost use Rattle.std.specs.Prelude.{◌≡◌, ◌<◌, ◌≤◌, ◌+◌, ◌^◌, length, IfOk};
ghost use Rattle.sve_diag.specs.DiagText.{diag_text};

use crate::Diag;
use std::alloc::Global;
use sve_bytes::{NoMemory, line_col};

/// The line of a diagnostic, without a line feed: the file, the line and the column, then the code and, where there
/// is one, the argument (own). `text` is the text of the diagnostic's file.
pub fn print(alloc: Global, diag: &Diag, text: &[u8]) -> Result<Vec<u8>, NoMemory>
    requires within { diag.now.place.offset ≤ length text.now }
    requires small { length text.now + 1 < 2 ^ 32 }
    ensures { IfOk result (λ v. v.items ≡ diag_text diag.now text.now) }
{
    let (line, column) = line_col(text, diag.place.offset as usize);
    let position = format!(in alloc; ":{line}:{column}: ")?;
    let mut shown = Vec::from_slice(alloc, diag.place.file.bytes())?;
    shown.extend_from_slice(position.as_bytes())?;
    shown.extend_from_slice(diag.code.spelling())?;
    if let Some(arg) = &diag.arg {
        shown.push(b' ')?;
        shown.extend_from_slice(arg.bytes())?;
    }
    Ok(shown)
}
