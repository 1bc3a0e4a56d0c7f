//! What a history holds of a commit.
ghost use Rattle.std.specs.Prelude.{◌≡◌, IfOk};

use std::alloc::Global;
use sve_bytes::{List, NoMemory};
use sve_text::Edit;

/// A commit that was accepted.
pub struct Entry {
    /// Whose commit it is. Clients count from 1.
    pub client: u32,
    /// Which of its client's commands it is. Commands count from 1.
    pub command: u32,
    /// What it changes, in order.
    pub edits: List<Edit>,
}

impl Drop for Entry {
    fn drop(self) {
        let Entry {
            client: _,
            command: _,
            edits: _,
        } = self;
    }
}

impl Entry {
    /// The entry of this command, with a copy of its edits that shares their texts.
    ///
    /// # Errors
    /// Only for want of memory.
    pub fn of(alloc: Global, client: u32, command: u32, edits: &[Edit]) -> Result<Entry, NoMemory>
        ensures { IfOk result (λ entry. entry ≡ record { client = client; command = command; edits = edits.now }) }
    {
        let mut copies = Vec::with_capacity(alloc, edits.len())?;
        'copies: for edit in edits {
            copies.push(copy_of(edit)?)?;
        }
        Ok(Entry {
            client,
            command,
            edits: List::of(copies),
        })
    }
}

/// The same edit, which shares its text.
fn copy_of(edit: &Edit) -> Result<Edit, NoMemory>
    ensures { IfOk result (λ copy. copy ≡ edit.now) }
{
    match edit {
        Edit::Put { name, text } => Ok(Edit::Put {
            name: name.copy()?,
            text: text.share()?,
        }),
        Edit::Drop { name } => Ok(Edit::Drop { name: name.copy()? }),
        Edit::Splice {
            name,
            base,
            at,
            cut,
            text,
        } => Ok(Edit::Splice {
            name: name.copy()?,
            base: *base,
            at: *at,
            cut: *cut,
            text: text.share()?,
        }),
    }
}
