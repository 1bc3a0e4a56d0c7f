ghost use Rattle.std.specs.Prelude.{◌≡◌, ◌++◌, OnOk};
ghost use Rattle.std.specs.List.{flat_map};
ghost use Rattle.sve_index.specs.Sources.{called};
ghost use Rattle.sve_index.specs.Labels.{is_called, mention_note};

use crate::def::note;
use crate::source::{FileElement, called, name_at};
use sve_bytes::{Name, NoMemory};
use sve_diag::{Code, Note};
use sve_mention::Mention;
use sve_tree::Word;

/// Whether what ends has a name, at this token, and the label repeats it.
fn is_called(words: &[Word], name: Option<u32>, label: &Name) -> bool
    ensures { result ≡ is_called (called words.now name) label.now }
{
    match called(words, name) {
        Some(name) => name == label,
        None => false,
    }
}

/// Adds the note of a label behind an end word that is not the name of what ends.
fn add_label_note(
    source: &FileElement,
    mention: Mention,
    notes: &mut Vec<Note>,
) -> Result<(), NoMemory>
    ensures { OnOk result (notes.new.items ≡ notes.old.items ++ mention_note source.now mention) }
{
    let Mention::EndLabel { name, label } = mention else {
        return Ok(());
    };
    let words = source.element().words.as_slice();
    let Some(told) = name_at(words, label) else {
        return Ok(());
    };
    if is_called(words, name, told) {
        return Ok(());
    }
    notes.push(note(source, label, Code::S04, told)?)?;
    Ok(())
}

/// Adds the notes of an element's labels.
pub(crate) fn add_label_notes(
    source: &FileElement,
    mentions: &[Mention],
    notes: &mut Vec<Note>,
) -> Result<(), NoMemory>
    ensures { OnOk result (notes.new.items ≡ notes.old.items ++ flat_map (mention_note source.now) mentions.now) }
{
    for mention in mentions {
        add_label_note(source, *mention, notes)?;
    }
    Ok(())
}
