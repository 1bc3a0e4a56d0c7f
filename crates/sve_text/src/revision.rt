//! The files that a commit leaves.
ghost use Rattle.std.specs.Prelude.{◌≡◌, None, IfOk};
ghost use Rattle.sve_text.specs.Rows.{IsInOrder, text_of};
ghost use Rattle.sve_text.specs.Files.{files_after, edited, keep_names, name_of, text_after};
ghost use Rattle.sve_text.specs.Refusals.{refusal_of};
ghost use Rattle.sve_text.specs.Tree.{rows_in, IsCounted};

use crate::edit::Edit;
use crate::files::Files;
use crate::row::StoredRow;
use crate::tree::Tree;
use std::alloc::Global;
use sve_bytes::NoMemory;
use sve_rope::Text;

/// The files after the commit of these edits, which makes revision `r`, on condition that it is not
/// refused: the edits in order, each on what the earlier ones left. Each touched name gets stamp `r`,
/// and so does the set of the names that are there, unless it stays as it is. Texts are shared with
/// `edits`, and what no edit touches with `files`.
///
/// # Errors
/// Only for want of memory.
pub fn apply(alloc: Global, files: &Files, edits: &[Edit], r: u64) -> Result<Files, NoMemory>
    requires not_refused { refusal_of files.now edits.now ≡ None }
    ensures files { IfOk result (λ f. f ≡ files_after r files.now edits.now) }
{
    let mut tree = files.tree.share()?;
    'edits: for edit in edits {
        tree = tree_after(alloc, &tree, edit, r)?;
    }
    let names_stamp = if have_same_names(&files.tree, &tree, edits) {
        files.names_stamp
    } else {
        r
    };
    Ok(Files { tree, names_stamp })
}

/// The rows after one edit of the commit that makes revision `r`.
fn tree_after(alloc: Global, tree: &Tree, edit: &Edit, r: u64) -> Result<Tree, NoMemory>
    requires in_order { IsInOrder (rows_in tree.now) }
    requires counted { IsCounted tree.now }
    ensures rows { IfOk result (λ t. rows_in t ≡ edited r (rows_in tree.now) edit.now) }
    ensures counted { IfOk result IsCounted }
{
    let row = StoredRow {
        name: edit.name().copy()?,
        text: text_left(alloc, tree, edit)?,
        stamp: r,
    };
    tree.put(alloc, row)
}

/// The text that an edit leaves of its file, if any.
fn text_left(alloc: Global, tree: &Tree, edit: &Edit) -> Result<Option<Text>, NoMemory>
    requires { IsInOrder (rows_in tree.now) }
    ensures { IfOk result (λ t. t ≡ text_after (text_of (rows_in tree.now) (name_of edit.now)) edit.now) }
{
    match edit {
        Edit::Put { text, .. } => Ok(Some(text.share()?)),
        Edit::Drop { .. } => Ok(None),
        Edit::Splice {
            name,
            at,
            cut,
            text,
            ..
        } => match tree.text(name) {
            Some(old) => Ok(Some(old.splice(alloc, *at as usize, *cut as usize, text)?)),
            None => Ok(None),
        },
    }
}

/// Whether each name that these edits touch is there after them exactly where it was there before.
fn have_same_names(before: &Tree, after: &Tree, edits: &[Edit]) -> bool
    requires before { IsInOrder (rows_in before.now) }
    requires after { IsInOrder (rows_in after.now) }
    ensures { result ≡ keep_names (rows_in before.now) (rows_in after.now) edits.now }
{
    'edits: for edit in edits {
        if before.is_there(edit.name()) != after.is_there(edit.name()) {
            return false;
        }
    }
    true
}
