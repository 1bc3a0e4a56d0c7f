//! Lines and their parts.
ghost use Rattle.std.specs.Prelude.{◌≡◌, ◌-◌, ◌<◌, ◌+◌, ◌++◌, ◌∷◌, ◌^◌, IfOk, OnOk, decimal, length, take};
ghost use Rattle.sve_bytes.specs.PathText.{name_text};
ghost use Rattle.sve_listing.specs.Lists.{max_listed};
ghost use Rattle.sve_facts_lines.specs.Texts.{at_text};

use itoa::Buffer;
use std::alloc::Global;
use sve_bytes::{List, Name, NoMemory, Path, Step, line_col};
use sve_diag::Place;
use sve_listing::MAX_LISTED;
use sve_report::Lines;

/// The first of some things: as many as there may be lines more.
#[tactic(auto, using(crate::proofs::Room::all_in_room))]
pub(crate) fn in_room<'a, T>(lines: &Lines, items: &'a [T]) -> &'a [T]
    ensures { result.now ≡ take (max_listed - length lines.now) items.now }
{
    let room = MAX_LISTED.saturating_sub(lines.count());
    if items.len() <= room {
        items
    } else {
        &items[..room]
    }
}

/// Adds a name to a text, as a path of one step is spelled: one that is no simple identifier, or is a keyword, is a backslash, the
/// name and one space (IEEE 1800-2017, 5.6.1).
///
/// # Errors
/// For want of memory alone.
pub fn append_name(alloc: Global, text: &mut Vec<u8>, name: &Name) -> Result<(), NoMemory>
    ensures { OnOk result (text.new.items ≡ text.old.items ++ name_text name.now) }
{
    let step = Step {
        name: name.copy()?,
        index: None,
    };
    let path = Path {
        steps: List::of(vec![in alloc; step]?),
    };
    text.extend_from_slice(&path.print(alloc)?)
}

/// Adds a number behind a colon.
fn append_number(text: &mut Vec<u8>, number: u32) -> Result<(), NoMemory>
    ensures { OnOk result (text.new.items ≡ text.old.items ++ 58 ∷ decimal number) }
{
    text.push(b':')?;
    text.extend_from_slice(Buffer::new().format(number).as_bytes())
}

/// `at <file>:<line>:<column>`. A place behind the end of its file, which none has, is shown at the end.
pub(crate) fn at_text(alloc: Global, at: &Place, text: &[u8]) -> Result<Vec<u8>, NoMemory>
    requires small { length text.now + 1 < 2 ^ 32 }
    ensures { IfOk result (λ line. line.items ≡ at_text at.now text.now) }
{
    let (line, column) = line_col(text, (at.offset as usize).min(text.len()));
    let mut shown = Vec::from_slice(alloc, b"at ")?;
    shown.extend_from_slice(at.file.bytes())?;
    append_number(&mut shown, line)?;
    append_number(&mut shown, column)?;
    Ok(shown)
}
