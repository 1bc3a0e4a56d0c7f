//! A history and its calls.
ghost use Rattle.std.specs.Prelude.{◌≡◌, ◌≤◌, ◌<◌, ◌-◌, ◌++◌, ◌∷◌, [], length, slice_get, Some, None, All, IfOk, OnOk, OnErr};
ghost use Rattle.sve_text.specs.Refusals.{refusal_of};
ghost use Rattle.sve_history.specs.Histories.{IsOpening, files_at, newest_files, commands_of, IsLegal};

use crate::entry::Entry;
use crate::revision::Revision;
use std::alloc::Global;
use std::marker::Model;
use sve_bytes::NoMemory;
use sve_text::{Files, apply};

/// The opening files, and the commits that were accepted since, in order. Revision 0 is the opening files, and each
/// commit makes the next revision. No commit was refused on the files before it, and the numbers of each client's
/// commands rise.
///
/// The revisions share what they have in common, so that one takes memory for what its commit touched.
pub struct History {
    opening: Files,
    revisions: Vec<Revision>,
}

impl Drop for History {
    fn drop(self) {
        let History {
            opening: _,
            revisions: _,
        } = self;
    }
}

impl Model for History {
    ghost use Rattle.sve_history.specs.Histories.{HistoryValue};
    ghost use Rattle.sve_history.specs.Revisions.{entries_in, IsHistory};

    ghost Value = { HistoryValue };

    ghost view = { λ h. record { opening = h.opening; entries = entries_in h.revisions.items } };

    ghost invariant = { λ h. IsHistory h.opening h.revisions.items };
}

impl History {
    /// The history before the first commit, on condition that no commit has touched these files.
    pub fn of(alloc: Global, files: Files) -> History
        requires opening { IsOpening files }
        ensures { result ≡ record { opening = files; entries = [] } }
    {
        History {
            opening: files,
            revisions: Vec::new(alloc),
        }
    }

    /// How many commits it has, which is the number of the newest revision. It takes no memory.
    pub fn len(&self) -> u64
        ensures { result ≡ length self.now.entries }
    {
        self.revisions.len() as u64
    }

    /// The commit that made revision `r`, from 1. It takes no memory.
    pub fn entry(&self, r: u64) -> &Entry
        requires made { (1 ≤ r) × (r ≤ length self.now.entries) }
        ensures entry { slice_get self.now.entries (r - 1) ≡ Some result.now }
    {
        &self.revisions[r as usize - 1].entry
    }

    /// The files of revision `r`, from 0. It takes no memory.
    pub fn revision(&self, r: u64) -> &Files
        requires made { r ≤ length self.now.entries }
        ensures files { result.now ≡ files_at self.now.opening self.now.entries r }
    {
        if r == 0 {
            &self.opening
        } else {
            &self.revisions[r as usize - 1].files
        }
    }

    /// The files of revision `r`, from 0, by value. They share all that they hold with the history.
    ///
    /// # Errors
    /// Only for want of memory.
    pub fn files_at(&self, alloc: Global, r: u64) -> Result<Files, NoMemory>
        requires made { r ≤ length self.now.entries }
        ensures files { IfOk result (λ files. files ≡ files_at self.now.opening self.now.entries r) }
    {
        // A commit without edits leaves the files as they are.
        apply(alloc, self.revision(r), &[], r)
    }

    /// The files of the newest revision. It takes no memory.
    pub fn newest(&self) -> &Files
        ensures { result.now ≡ newest_files self.now }
    {
        self.revision(self.len())
    }

    /// What holds of every history: no commit was refused where it stands, the commands of each client rise, and no
    /// commit has touched the opening files. It does nothing.
    pub fn stays_legal(&self)
        ensures legal { IsLegal self.now }
        ensures opening { IsOpening self.now.opening }
    {
        // What the type keeps is known where one of its fields is looked at.
        let _ = &self.opening;
    }

    /// Makes the next revision by this commit, on condition that the newest files do not refuse its edits and that its
    /// command is above its client's earlier ones. It takes memory for the entry and for what the edits touch.
    ///
    /// # Errors
    /// Only for want of memory; the history is then as before.
    pub fn push(&mut self, alloc: Global, entry: Entry) -> Result<(), NoMemory>
        requires not_refused { refusal_of (newest_files self.old) entry.edits ≡ None }
        requires rises { All (λ earlier. earlier < entry.command) (commands_of entry.client self.old.entries) }
        ensures entered { OnOk result (self.new ≡ record self.old { entries = self.old.entries ++ entry ∷ [] }) }
        ensures unchanged { OnErr result (self.new ≡ self.old) }
    {
        let r = self.len() + 1;
        let files = apply(alloc, self.newest(), entry.edits.items(), r)?;
        self.revisions.push(Revision { entry, files })?;
        Ok(())
    }
}
