//! The value that all clients share.
ghost use Rattle.std.specs.Prelude.{◌≡◌, ◌<◌, ◌≤◌, ◌^◌, [], length, All, IfOk, OnOk, OnErr};
ghost use Rattle.sve_text.specs.Refusals.{refusal_of};
ghost use Rattle.sve_history.specs.Histories.{IsOpening, newest_files, commands_of};
ghost use Rattle.sve_memo.specs.Memos.{IsInOrder};
ghost use Rattle.sve_ask.specs.Sound.{Defined, AllSound};
ghost use Rattle.sve_kept.specs.Kept.{AreJoined};
ghost use Rattle.sve_core.specs.Asks.{snapshot_of, history_at};
ghost use Rattle.sve_core.specs.Commits.{committed, commit_told};

use crate::commit::Commit;
use std::alloc::Global;
use std::marker::Model;
use std::snapshot;
use sve_ask::{Fresh, Lent};
use sve_bytes::NoMemory;
use sve_history::{Entry, History};
use sve_kept::Store;
use sve_memo::Memos;
use sve_store::{Kinds, Snapshot};
use sve_text::{Edit, Files, Refusal, refusal};

/// The history of the accepted commits with the newest files, and the values that were computed over them, each of which is
/// sound for the history. Whoever calls holds it alone, so each call is one step.
pub struct Core<K: Kinds> {
    history: History,
    store: Store<K>,
}

impl<K: Kinds> Model for Core<K> {
    ghost use Rattle.std.specs.Prelude.{◌≡◌};
    ghost use Rattle.sve_core.specs.Commits.{CoreValue};

    ghost Value = { CoreValue K.Key K.Value };

    ghost view = { λ core. record { history = core.history; memos = core.store.memos } };

    ghost invariant = { λ core. core.store.history ≡ core.history };
}

impl<K: Kinds> Core<K> {
    /// A core with these opening files, on condition that no commit has touched them, no entry and no value.
    ///
    /// # Errors
    /// Only for want of memory.
    pub fn open(alloc: Global, files: Files) -> Result<Core<K>, NoMemory>
        requires opening { IsOpening files }
        ensures { IfOk result (λ core. core ≡ record { history = record { opening = files; entries = [] }; memos = [] }) }
    {
        let history = History::of(alloc, files);
        let store = Store::new(snapshot::Snapshot::of(&history));
        Ok(Core { history, store })
    }

    /// Commits these edits as a command of a client, whose number is above those of the client's earlier entries: they
    /// are refused where the newest files refuse them, else they make the next revision. Every value stays. It never
    /// answers `Full`.
    ///
    /// # Errors
    /// Only for want of memory; the core is then as before.
    pub fn commit(
        &mut self,
        alloc: Global,
        client: u32,
        command: u32,
        edits: &[Edit],
    ) -> Result<Commit, NoMemory>
        requires few { length edits.now < 2 ^ 32 }
        requires rises { All (λ earlier. earlier < command) (commands_of client self.old.history.entries) }
        ensures told { IfOk result (λ told. told ≡ commit_told self.old.history (refusal_of (newest_files self.old.history) edits.now)) }
        ensures after { OnOk result (self.new ≡ record { history = committed self.old.history (record { client = client; command = command; edits = edits.now }) (refusal_of (newest_files self.old.history) edits.now); memos = self.old.memos }) }
        ensures unchanged { OnErr result (self.new ≡ self.old) }
    {
        if let Some(Refusal { edit, why }) = refusal(self.history.newest(), edits) {
            let r = self.history.len();
            return Ok(Commit::Refused { r, edit, why });
        }
        let entry = Entry::of(alloc, client, command, edits)?;
        self.store.retire(self.history.len().saturating_add(1))?;
        self.history.push(alloc, entry)?;
        self.store.go_on(snapshot::Snapshot::of(&self.history));
        Ok(Commit::Accepted {
            r: self.history.len(),
        })
    }

    /// The newest revision, with the history and all values as they are. The values are shared, and none is copied.
    ///
    /// # Errors
    /// Only for want of memory.
    pub fn begin(&self, alloc: Global) -> Result<Lent<K>, NoMemory>
        ensures snapshot { IfOk result (λ lent. lent.snapshot ≡ snapshot_of self.now.history) }
        ensures memos { IfOk result (λ lent. lent.memos ≡ self.now.memos) }
    {
        self.history.stays_legal();
        let r = self.history.len();
        let files = self.history.files_at(alloc, r)?;
        let snapshot = Snapshot::of(files, r, snapshot::Snapshot::of(&self.history));
        self.store.lend(snapshot)
    }

    /// Takes the values that were computed at revision `base`, however many have come since: of each key that one is kept, or the
    /// one that was held, where that was verified later. Every other value stays.
    ///
    /// # Errors
    /// Only for want of memory; the core is then as before.
    pub fn publish(&mut self, alloc: Global, base: u64, fresh: Fresh<K>) -> Result<(), NoMemory>
        requires made { base ≤ length self.old.history.entries }
        requires sound { ∥ AllSound (record { cmp = K.Key.cmp; given = K.given; make = K.make; ranked = K.ranked; serves = K.serves }) (history_at self.old.history base) fresh.memos ∥₁ }
        ensures history { self.new.history ≡ self.old.history }
        ensures joined { OnOk result (AreJoined K.Key.cmp fresh.memos self.old.memos self.new.memos) }
        ensures unchanged { OnErr result (self.new ≡ self.old) }
    {
        // Which revision it is matters to contracts alone.
        let _ = base;
        let memos = fresh.memos().list(alloc)?;
        self.store.join(alloc, &memos)
    }

    /// The history. It takes no memory.
    pub fn history(&self) -> &History
        ensures { result.now ≡ self.now.history }
    {
        &self.history
    }

    /// The values that were computed, each with what it rests on. It takes no memory.
    pub fn memos(&self) -> &Memos<K::Key, K::Value>
        ensures { result.now ≡ self.now.memos }
    {
        self.store.memos()
    }

    /// What holds of every core: each of its values is sound for the history, and they stand in the order of their keys, at most
    /// one for each. It does nothing.
    pub fn stays_sound(&self)
        ensures sound { AllSound (record { cmp = K.Key.cmp; given = K.given; make = K.make; ranked = K.ranked; serves = K.serves }) self.now.history self.now.memos }
        ensures order { IsInOrder K.Key.cmp self.now.memos }
    {
        self.store.stays_sound();
        self.store.memos().stay_in_order();
    }

    /// The history by value. It takes no memory.
    pub fn into_history(self) -> History
        ensures { result ≡ self.history }
    {
        let Core { history, store: _ } = self;
        history
    }
}

impl<K: Kinds> Drop for Core<K> {
    fn drop(self) {
        let Core {
            history: _,
            store: _,
        } = self;
    }
}
