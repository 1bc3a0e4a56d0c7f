//! What holds of the definitions of files and edits. The clause of each function is a law, and its
//! body does nothing.
ghost use Rattle.sve_text.specs.Laws.{PutChangesOneName, PutKeepsOrder, EditChangesOneName, CommitStampsItsNames, EachFileIsItsEdits, CommitKeepsOrder, KeptNamesAreAllNames, NamesStampTellsTheSet, OpeningFilesAreThere, DropTakesAway, SpliceChangesItsBytes, RefusalIsTheFirst, NoneIsRefused, CommitKeepsLimits};

/// A row that is put is found at its name, and every other name has what it had.
pub fn put_changes_one_name()
    ensures { PutChangesOneName }
{}

/// Rows in order stay in order where a row is put.
#[tactic(auto, using(crate::proofs::Puts::put_keeps_order))]
pub fn put_keeps_order()
    ensures { PutKeepsOrder }
{}

/// An edit gives its name the new text and the revision's stamp, and leaves every other name as it
/// was.
pub fn edit_changes_one_name()
    ensures { EditChangesOneName }
{}

/// After a commit each name that it touches has its stamp, and every other name has what it had.
pub fn commit_stamps_its_names()
    ensures { CommitStampsItsNames }
{}

/// After a commit each file is what the edits of its own name make of it, in their order.
#[tactic(auto, using(crate::proofs::Commits::each_file_is_its_edits))]
pub fn each_file_is_its_edits()
    ensures { EachFileIsItsEdits }
{}

/// A commit leaves rows in order.
#[tactic(auto, using(crate::proofs::Commits::commit_keeps_order))]
pub fn commit_keeps_order()
    ensures { CommitKeepsOrder }
{}

/// The test of the touched names alone tells whether a commit leaves the set of all names as it was.
#[tactic(auto, using(crate::proofs::Commits::kept_names_are_all_names))]
pub fn kept_names_are_all_names()
    ensures { KeptNamesAreAllNames }
{}

/// The stamp of the set of names is the revision whose commit last left another set than it found.
#[tactic(auto, using(crate::proofs::Commits::names_stamp_tells_the_set))]
pub fn names_stamp_tells_the_set()
    ensures { NamesStampTellsTheSet }
{}

/// Opening files are there with their texts and with stamp 0, and no other name is.
pub fn opening_files_are_there()
    ensures { OpeningFilesAreThere }
{}

/// A drop takes its file away, and nothing else.
pub fn drop_takes_away()
    ensures { DropTakesAway }
{}

/// A splice changes the bytes that it cuts, and no others.
#[tactic(auto, using(crate::proofs::Splices::splice_changes_its_bytes))]
pub fn splice_changes_its_bytes()
    ensures { SpliceChangesItsBytes }
{}

/// A refused commit is told its first edit that has a reason on what the earlier ones left, and that
/// reason.
#[tactic(auto, using(crate::proofs::Limits::refusal_is_the_first))]
pub fn refusal_is_the_first()
    ensures { RefusalIsTheFirst }
{}

/// No edit of a commit that is not refused has a reason on what the earlier ones left.
#[tactic(auto, using(crate::proofs::Limits::none_is_refused))]
pub fn none_is_refused()
    ensures { NoneIsRefused }
{}

/// A commit that is not refused leaves no text above 1,048,576 bytes, and no more than 2,048 files where
/// no more were there.
#[tactic(auto, using(crate::proofs::Limits::commit_keeps_limits))]
pub fn commit_keeps_limits()
    ensures { CommitKeepsLimits }
{}
