//! How rows spell opening files.
ghost use Rattle.std.specs.Prelude.{◌≤◌, IfSome, IfOk, length};
ghost use Rattle.sve_history.specs.Histories.{IsOpening};

use std::alloc::Global;
use sve_bytes::{List, Name, NoMemory};
use sve_history::laws::opening_files_are_untouched;
use sve_row::{decoded, name_of};
use sve_text::{Files, MAX_FILE_LEN, Text};

/// The text that a word spells.
pub fn text_of(alloc: Global, word: &str) -> Result<Text, NoMemory> {
    Text::of(alloc, List::of(decoded(alloc, word)?))
}

/// The opening files that a field spells: `-` for none, else one file, `NAME=TEXT`.
pub fn files_of(alloc: Global, field: &str) -> Result<Option<Files>, NoMemory>
    ensures { IfOk result (λ files. IfSome files IsOpening) }
{
    if field == "-" {
        return Ok(Some(no_files(alloc)?));
    }
    let Some((name, text)) = field.split_once("=") else {
        return Ok(None);
    };
    let Some(name) = name_of(alloc, name.as_bytes())? else {
        return Ok(None);
    };
    let text = text_of(alloc, text)?;
    if text.len() > MAX_FILE_LEN {
        return Ok(None);
    }
    Ok(Some(one_file(alloc, name, text)?))
}

/// Opening files without a file.
fn no_files(alloc: Global) -> Result<Files, NoMemory>
    ensures { IfOk result IsOpening }
{
    opening_files_are_untouched();
    Files::of(alloc, Vec::new(alloc))
}

/// Opening files with one file.
fn one_file(alloc: Global, name: Name, text: Text) -> Result<Files, NoMemory>
    requires { length text ≤ MAX_FILE_LEN }
    ensures { IfOk result IsOpening }
{
    let mut files = Vec::new(alloc);
    files.push((name, text))?;
    opening_files_are_untouched();
    Files::of(alloc, files)
}
