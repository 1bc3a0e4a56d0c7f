//! What the earlier edits of a commit leave of one file, told without making it.
ghost use Rattle.std.specs.Prelude.{◌≡◌, ◌<◌, ◌≤◌, ◌^◌, ℕ, List, Option, None, length, option_map, IfSome};
ghost use Rattle.sve_text.specs.Rows.{text_of, stamp_of};
ghost use Rattle.sve_text.specs.Files.{rows_after, text_after};
ghost use Rattle.sve_text.specs.Refusals.{name_file, refusal_of};
ghost use Rattle.sve_text.specs.Standing.{spliced_length};
ghost use Rattle.sve_text.specs.declared.edit.TheConstants.{MAX_FILE_LEN};

use crate::edit::Edit;
use crate::files::Files;
use sve_bytes::Name;

/// How a file stands behind some edits of a commit.
#[derive(Clone, Copy)]
pub(crate) struct Standing {
    /// The length of its text in bytes, where the file is there.
    pub(crate) length: Option<usize>,
    /// Whether one of the edits names it.
    pub(crate) is_named: bool,
    /// The revision before the commit that last touched it, or 0.
    pub(crate) stamp: u64,
}

/// How the file of this name stands behind these edits of a commit on these files, on condition that
/// none of them is refused.
pub(crate) fn standing_of(files: &Files, earlier: &[Edit], name: &Name) -> Standing
    requires { refusal_of files.now earlier.now ≡ None }
    ensures length { result.length ≡ option_map length (text_of (rows_after 0 files.now.rows earlier.now) name.now) }
    ensures in_limit { IfSome result.length (λ length. length ≤ MAX_FILE_LEN) }
    ensures named { result.is_named ≡ name_file earlier.now name.now }
    ensures stamp { result.stamp ≡ stamp_of files.now.rows name.now }
{
    let mut length = text_length(files, name);
    let mut is_named = false;
    'earlier: for edit in earlier {
        if name == edit.name() {
            length = length_after(length, edit);
            is_named = true;
        }
    }
    Standing {
        length,
        is_named,
        stamp: files.stamp(name),
    }
}

/// The length of a file's text, where it is there.
fn text_length(files: &Files, name: &Name) -> Option<usize>
    ensures length { result ≡ option_map length (text_of files.now.rows name.now) }
    ensures in_limit { IfSome result (λ length. length ≤ MAX_FILE_LEN) }
{
    match files.text(name) {
        Some(text) => Some(text.len()),
        None => None,
    }
}

/// The length of the text that an edit leaves of its file, of which a text of this length was there.
fn length_after(before: Option<usize>, edit: &Edit) -> Option<usize>
    requires { IfSome before (λ length. length ≤ MAX_FILE_LEN) }
    ensures { (text : Option (List ℕ)) → before ≡ option_map length text → result ≡ option_map length (text_after text edit.now) }
{
    match edit {
        Edit::Put { text, .. } => Some(text.len()),
        Edit::Drop { .. } => None,
        Edit::Splice { at, cut, text, .. } => match before {
            Some(length) => Some(spliced_length(length, *at, *cut, text.len())),
            None => None,
        },
    }
}

/// The length of a text of this length in which so many new bytes take the place of the `cut` bytes
/// that begin at offset `at`, or of those of them that there are.
pub(crate) fn spliced_length(length: usize, at: u32, cut: u32, new: usize) -> usize
    requires in_limit { length ≤ MAX_FILE_LEN }
    requires fits { new < 2 ^ 63 }
    ensures { result ≡ spliced_length at cut new length }
{
    let front = (at as usize).min(length);
    let back = length.saturating_sub(at as usize + cut as usize);
    front + new + back
}
