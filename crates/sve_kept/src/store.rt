//! The store of memos.
ghost use Rattle.std.specs.Prelude.{◌≡◌, [], IfOk, OnOk, OnErr};
ghost use Rattle.sve_history.specs.Histories.{HistoryValue};
ghost use Rattle.sve_memo.specs.Memos.{IsInOrder};
ghost use Rattle.sve_ask.specs.Sound.{Defined, AllSound};
ghost use Rattle.sve_kept.specs.Kept.{GoesOn, AreJoined};

use crate::join::join_all;
use std::alloc::Global;
use std::marker::Model;
use std::snapshot;
use sve_ask::Lent;
use sve_bytes::NoMemory;
use sve_history::History;
use sve_memo::{Memo, Memos};
use sve_store::{Kinds, Snapshot};

/// The memos that clients share. Contracts see the history so far too, which takes no bytes: each memo is sound for it.
///
/// Who asks is lent all memos, and what was found by the ask is joined when it has ended, however long the history has
/// grown by then.
pub struct Store<K: Kinds> {
    memos: Memos<K::Key, K::Value>,
    past: snapshot::Snapshot<History>,
}

impl<K: Kinds> Model for Store<K> {
    ghost use Rattle.sve_kept.specs.Kept.{StoreValue};

    ghost Value = { StoreValue K.Key K.Value };

    ghost use Rattle.sve_ask.specs.Sound.{Defined, AllSound};

    ghost view = { λ s. record { history = s.past.value; memos = s.memos } };

    ghost invariant = { λ s. AllSound (record { cmp = K.Key.cmp; given = K.given; make = K.make; ranked = K.ranked; serves = K.serves }) s.past.value s.memos };
}

impl<K: Kinds> Store<K> {
    /// No memo, beside the history that is shown. It takes no memory.
    pub fn new(past: snapshot::Snapshot<History>) -> Store<K>
        ensures { result ≡ record { history = past.value; memos = [] } }
    {
        Store {
            memos: Memos::new(),
            past,
        }
    }

    /// The memos as they are, with a snapshot whose history is that of the store or goes on from it. The memos are shared,
    /// and none is copied.
    ///
    /// # Errors
    /// Only for want of memory.
    pub fn lend(&self, snapshot: Snapshot<K>) -> Result<Lent<K>, NoMemory>
        requires history { GoesOn self.now.history snapshot.history }
        ensures snapshot { IfOk result (λ lent. lent.snapshot ≡ snapshot) }
        ensures memos { IfOk result (λ lent. lent.memos ≡ self.now.memos) }
    {
        let memos = self.memos.share()?;
        Ok(Lent::of(snapshot, memos))
    }

    /// Joins what was found by an ask, in the order of the keys and at most one memo for each: of each key that one is kept,
    /// or the one that was held, where that was verified later. Every other memo stays. The history of the ask is one that
    /// the store's goes on from, however far. It takes as many steps as there are memos to be joined, each as many as the
    /// number of memos has bits, but for a factor.
    ///
    /// # Errors
    /// Only for want of memory; the store is then as before.
    pub fn join(&mut self, alloc: Global, fresh: &[Memo<K::Key, K::Value>]) -> Result<(), NoMemory>
        requires order { IsInOrder K.Key.cmp fresh.now }
        requires sound { (earlier : HistoryValue) × GoesOn earlier self.old.history × ∥ AllSound (record { cmp = K.Key.cmp; given = K.given; make = K.make; ranked = K.ranked; serves = K.serves }) earlier fresh.now ∥₁ }
        ensures history { self.new.history ≡ self.old.history }
        ensures joined { OnOk result (AreJoined K.Key.cmp fresh.now self.old.memos self.new.memos) }
        ensures unchanged { OnErr result (self.new ≡ self.old) }
    {
        let memos = join_all(alloc, &self.memos, fresh)?;
        self.memos = memos;
        Ok(())
    }

    /// Goes on with the history that is shown, which goes on from the store's. It takes no memory.
    pub fn go_on(&mut self, past: snapshot::Snapshot<History>)
        requires history { GoesOn self.old.history past.value }
        ensures { self.new ≡ record { history = past.value; memos = self.old.memos } }
    {
        self.past = past;
    }

    /// Lets the memos go that nobody may want once revision `r` is there. There are none yet: each memo is kept.
    ///
    /// # Errors
    /// Only for want of memory; the store is then as before.
    pub fn retire(&mut self, r: u64) -> Result<(), NoMemory>
        ensures kept { self.new ≡ self.old }
    {
        let _ = r;
        Ok(())
    }

    /// The memos. It takes no memory.
    pub fn memos(&self) -> &Memos<K::Key, K::Value>
        ensures { result.now ≡ self.now.memos }
    {
        &self.memos
    }

    /// What holds of every store: each memo is sound for its history. It does nothing.
    pub fn stays_sound(&self)
        ensures { AllSound (record { cmp = K.Key.cmp; given = K.given; make = K.make; ranked = K.ranked; serves = K.serves }) self.now.history self.now.memos }
    {
        // What the type keeps is known where one of its fields is looked at.
        let _ = &self.memos;
    }
}

impl<K: Kinds> Drop for Store<K> {
    fn drop(self) {
        let Store { memos: _, past: _ } = self;
    }
}
