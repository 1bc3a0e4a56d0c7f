//! Why a commit is refused.
ghost use Rattle.std.specs.Prelude.{◌≡◌, ◌<◌, ◌≤◌, ◌^◌, None, IfSome, is_some, length};
ghost use Rattle.sve_text.specs.Refusals.{refusal_of};
ghost use Rattle.sve_text.specs.declared.edit.TheConstants.{MAX_FILE_LEN};
ghost use Rattle.sve_text.specs.Standing.{reason_told, put_reason_told, reach_reason, count_told};

use crate::edit::{Edit, MAX_FILE_LEN, MAX_FILES};
use crate::files::Files;
use crate::standing::{Standing, spliced_length, standing_of};
use crate::why::{Refusal, Why};

/// Why the commit of these edits on these files is refused, if it is: the first edit that has a reason
/// on what the earlier ones left, and its first reason. It takes no memory. Its time grows with the
/// square of the number of edits.
pub fn refusal(files: &Files, edits: &[Edit]) -> Option<Refusal>
    requires { length edits.now < 2 ^ 32 }
    ensures { result ≡ refusal_of files.now edits.now }
{
    let mut there = files.tree.count();
    'edits: for (i, edit) in edits.iter().enumerate() {
        let before = standing_of(files, &edits[..i], edit.name());
        if let Some(why) = reason(before, there, edit) {
            return Some(Refusal {
                edit: i as u32 + 1,
                why,
            });
        }
        there = count_after(before, there, edit);
    }
    None
}

/// Why an edit is refused whose file stands so, where so many files are there.
fn reason(before: Standing, there: usize, edit: &Edit) -> Option<Why>
    requires { IfSome before.length (λ length. length ≤ MAX_FILE_LEN) }
    ensures { result ≡ reason_told before.is_named before.stamp before.length there edit.now }
{
    match edit {
        Edit::Put { text, .. } => put_reason(before.length.is_some(), there, text.len()),
        Edit::Drop { .. } => match before.length {
            Some(_) => None,
            None => Some(Why::NoFile),
        },
        Edit::Splice {
            base,
            at,
            cut,
            text,
            ..
        } => match before.length {
            Some(_) if !before.is_named && *base != before.stamp => Some(Why::Stale {
                stamp: before.stamp,
            }),
            Some(length) => reach_reason(length, *at, *cut, text.len()),
            None => Some(Why::NoFile),
        },
    }
}

/// Why a put of so many bytes is refused, by whether its file is there and how many files are.
fn put_reason(is_there: bool, there: usize, bytes: usize) -> Option<Why>
    ensures { result ≡ put_reason_told is_there there bytes }
{
    if bytes > MAX_FILE_LEN {
        Some(Why::FileTooLarge {
            bytes: bytes as u64,
        })
    } else if !is_there && there >= MAX_FILES {
        Some(Why::TooManyFiles)
    } else {
        None
    }
}

/// Why a splice in a text of this length is refused, whatever its base.
fn reach_reason(length: usize, at: u32, cut: u32, new: usize) -> Option<Why>
    requires in_limit { length ≤ MAX_FILE_LEN }
    requires fits { new < 2 ^ 63 }
    ensures { result ≡ reach_reason at cut new length }
{
    if at as usize + cut as usize > length {
        return Some(Why::Range {
            length: length as u32,
        });
    }
    let bytes = spliced_length(length, at, cut, new);
    if bytes > MAX_FILE_LEN {
        Some(Why::FileTooLarge {
            bytes: bytes as u64,
        })
    } else {
        None
    }
}

/// How many files are there after an edit that is not refused, of so many before it.
fn count_after(before: Standing, there: usize, edit: &Edit) -> usize
    requires { reason_told before.is_named before.stamp before.length there edit.now ≡ None }
    ensures { result ≡ count_told (is_some before.length) there edit.now }
{
    match edit {
        Edit::Put { .. } => match before.length {
            Some(_) => there,
            None => there + 1,
        },
        Edit::Drop { .. } => match before.length {
            Some(_) => there.saturating_sub(1),
            None => there,
        },
        Edit::Splice { .. } => there,
    }
}
