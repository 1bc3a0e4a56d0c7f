//! What a client that began holds.
ghost use Rattle.std.specs.Prelude.{◌≡◌};
ghost use Rattle.sve_seat.specs.Seats.{held_with, snapshot_in};

use std::marker::Model;
use sve_ask::Lent;
use sve_store::{Kinds, Snapshot};

/// What a client was lent when it began: a snapshot, and the memos that were shared by then.
pub struct Held<K: Kinds> {
    lent: Lent<K>,
}

impl<K: Kinds> Model for Held<K> {
    ghost use Rattle.sve_seat.specs.Seats.{HeldValue, held_with};

    ghost Value = { HeldValue K.Key K.Value };

    ghost view = { λ h. held_with h.lent.snapshot h.lent.memos };
}

impl<K: Kinds> Held<K> {
    /// What was lent. It takes no memory.
    pub fn of(lent: Lent<K>) -> Held<K>
        ensures { result ≡ held_with lent.snapshot lent.memos }
    {
        Held { lent }
    }

    /// What was lent. It takes no memory.
    pub fn lent(&self) -> &Lent<K>
        ensures snapshot { result.now.snapshot ≡ snapshot_in self.now }
        ensures memos { result.now.memos ≡ self.now.memos }
    {
        &self.lent
    }

    /// The snapshot. It takes no memory.
    pub fn snapshot(&self) -> &Snapshot<K>
        ensures { result.now ≡ snapshot_in self.now }
    {
        self.lent.snapshot()
    }

    /// The number of its revision, from 0. It takes no memory.
    pub fn revision(&self) -> u64
        ensures { result ≡ self.now.revision }
    {
        self.lent.snapshot().revision()
    }
}

impl<K: Kinds> Drop for Held<K> {
    fn drop(self) {
        let Held { lent: _ } = self;
    }
}
