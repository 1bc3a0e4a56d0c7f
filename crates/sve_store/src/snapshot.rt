//! The files of one revision, with the history that made them.
ghost use Rattle.std.specs.Prelude.{◌≡◌};
ghost use Rattle.sve_store.specs.Snapshots.{IsRevision};

use crate::kinds::Keyed;
use std::marker::{Model, PhantomData};
use std::snapshot;
use sve_history::History;
use sve_text::Files;

/// The files of one revision. Contracts see the history that made them too, which takes no bytes. Each stamp of the
/// files is a revision of that history, at which what bears the stamp was as it is now.
pub struct Snapshot<K: Keyed> {
    files: Files,
    revision: u64,
    past: snapshot::Snapshot<History>,
    of: PhantomData<K>,
}

impl<K: Keyed> Model for Snapshot<K> {
    ghost use Rattle.sve_store.specs.Snapshots.{SnapshotValue, IsRevision};

    ghost Value = { SnapshotValue };

    ghost view = { λ s. record { files = s.files; revision = s.revision; history = s.past.value } };

    ghost invariant = { λ s. IsRevision s.files s.revision s.past.value };
}

impl<K: Keyed> Snapshot<K> {
    /// The snapshot of these files as revision `revision`, the last one of the history that is shown. It takes no
    /// memory.
    pub fn of(files: Files, revision: u64, past: snapshot::Snapshot<History>) -> Snapshot<K>
        requires made { IsRevision files revision past.value }
        ensures { result ≡ record { files = files; revision = revision; history = past.value } }
    {
        Snapshot {
            files,
            revision,
            past,
            of: PhantomData,
        }
    }

    /// The files. It takes no memory.
    pub fn files(&self) -> &Files
        ensures { result.now ≡ self.now.files }
    {
        &self.files
    }

    /// The number of the revision, from 0. It takes no memory.
    pub fn revision(&self) -> u64
        ensures { result ≡ self.now.revision }
    {
        self.revision
    }

    /// What holds of every snapshot: its files are those of the last revision of its history, which is its own, and no
    /// commit has touched the opening files. It does nothing.
    pub fn stays_made(&self)
        ensures { IsRevision self.now.files self.now.revision self.now.history }
    {
        // What the type keeps is known where one of its fields is looked at.
        let _ = &self.files;
    }
}

impl<K: Keyed> Drop for Snapshot<K> {
    fn drop(self) {
        let Snapshot {
            files: _,
            revision: _,
            past: _,
            of: _,
        } = self;
    }
}
