//! What a call that asks for values is lent, and where it keeps those that it made current.
ghost use Rattle.std.specs.Prelude.{◌≡◌, []};
ghost use Rattle.sve_ask.specs.Sound.{Defined, AllSound};

use std::marker::PhantomData;
use sve_memo::Memos;
use sve_store::{Keyed, Kinds, Snapshot};

/// A snapshot, and the memos that were shared when it was made. Each of them is sound for the snapshot's history.
pub struct Lent<K: Kinds> {
    pub(crate) snapshot: Snapshot<K>,
    pub(crate) memos: Memos<K::Key, K::Value>,
    ghost sound: { ∥ AllSound (record { cmp = K.Key.cmp; given = K.given; make = K.make; ranked = K.ranked; serves = K.serves }) snapshot.history memos ∥₁ },
}

impl<K: Kinds> Lent<K> {
    /// The snapshot with these memos, on condition that they are sound for its history. It takes no memory.
    pub fn of(snapshot: Snapshot<K>, memos: Memos<K::Key, K::Value>) -> Lent<K>
        requires sound { ∥ AllSound (record { cmp = K.Key.cmp; given = K.given; make = K.make; ranked = K.ranked; serves = K.serves }) snapshot.history memos ∥₁ }
        ensures snapshot { result.snapshot ≡ snapshot }
        ensures memos { result.memos ≡ memos }
    {
        Lent { snapshot, memos }
    }

    /// The snapshot. It takes no memory.
    pub fn snapshot(&self) -> &Snapshot<K>
        ensures { result.now ≡ self.now.snapshot }
    {
        &self.snapshot
    }

    /// The memos. It takes no memory.
    pub fn memos(&self) -> &Memos<K::Key, K::Value>
        ensures { result.now ≡ self.now.memos }
    {
        &self.memos
    }
}

impl<K: Kinds> Drop for Lent<K> {
    fn drop(self) {
        let Lent {
            snapshot: _,
            memos: _,
        } = self;
    }
}

/// The memos that were made or verified while queries were answered at one snapshot.
pub struct Fresh<K: Keyed> {
    pub(crate) memos: Memos<K::Key, K::Value>,
    of: PhantomData<K>,
}

impl<K: Keyed> Fresh<K> {
    /// No memo. It takes no memory.
    pub fn new() -> Fresh<K>
        ensures { result.memos ≡ [] }
    {
        Fresh {
            memos: Memos::new(),
            of: PhantomData,
        }
    }

    /// The memos. It takes no memory.
    pub fn memos(&self) -> &Memos<K::Key, K::Value>
        ensures { result.now ≡ self.now.memos }
    {
        &self.memos
    }
}

impl<K: Keyed> Drop for Fresh<K> {
    fn drop(self) {
        let Fresh { memos: _, of: _ } = self;
    }
}
