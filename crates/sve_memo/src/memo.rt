ghost use Rattle.std.specs.Prelude.{◌≡◌, IfOk};
ghost use Rattle.std.specs.Arc.{arc_value};

use std::alloc::Global;
use std::marker::Model;
use std::sync::Arc;
use sve_bytes::NoMemory;

/// A value that was computed for a key, and the keys that were read for it.
#[derive(Drop)]
pub(crate) struct Found<Q, V> {
    key: Q,
    value: Arc<V>,
    reads: Vec<(Q, u64)>,
}

/// What was found for a key: a value, with a stamp that names it, which is a revision at which the key had this value.
/// The reads are the keys that were read for it, each with the stamp of the value that it had. Beside it stands the last
/// revision at which it is known to be so. Copies share what was found.
pub struct Memo<Q, V> {
    found: Arc<Found<Q, V>>,
    stamp: u64,
    verified: u64,
}

impl<Q: Drop, V: Drop> Drop for Memo<Q, V> {
    fn drop(self) {
        let Memo {
            found: _,
            stamp: _,
            verified: _,
        } = self;
    }
}

impl<Q, V> Model for Memo<Q, V> {
    ghost use Rattle.std.specs.Arc.{arc_value};
    ghost use Rattle.sve_memo.specs.Memos.{MemoValue};

    ghost Value = { MemoValue Q V };

    ghost view = { λ m. record { finding = record { key = (arc_value m.found).key; value = arc_value (arc_value m.found).value; stamp = m.stamp; reads = (arc_value m.found).reads.items }; verified = m.verified } };
}

impl<Q: Drop, V: Drop> Memo<Q, V> {
    /// What was found for a key, as known at the revision `verified`.
    ///
    /// # Errors
    /// Only for want of memory.
    pub fn new(
        alloc: Global,
        key: Q,
        value: Arc<V>,
        stamp: u64,
        reads: Vec<(Q, u64)>,
        verified: u64,
    ) -> Result<Memo<Q, V>, NoMemory>
        ensures { IfOk result (λ memo. memo ≡ record { finding = record { key = key; value = arc_value value; stamp = stamp; reads = reads.items }; verified = verified }) }
    {
        let found = Found { key, value, reads };
        Ok(Memo {
            found: Arc::new(alloc, found)?,
            stamp,
            verified,
        })
    }

    /// The key. It takes no memory.
    pub fn key(&self) -> &Q
        ensures { result.now ≡ self.now.finding.key }
    {
        &self.found.key
    }

    /// The value, which is shared. It takes no memory.
    pub fn value(&self) -> &Arc<V>
        ensures { arc_value result.now ≡ self.now.finding.value }
    {
        &self.found.value
    }

    /// A revision that names the value. It takes no memory.
    pub fn stamp(&self) -> u64
        ensures { result ≡ self.now.finding.stamp }
    {
        self.stamp
    }

    /// The keys that were read, with the stamps of their values, in the order in which they were needed. It takes no
    /// memory.
    pub fn reads(&self) -> &[(Q, u64)]
        ensures { result.now ≡ self.now.finding.reads }
    {
        &self.found.reads
    }

    /// The last revision at which it is known to be so. It takes no memory.
    pub fn verified(&self) -> u64
        ensures { result ≡ self.now.verified }
    {
        self.verified
    }

    /// The same memo, which shares what was found.
    ///
    /// # Errors
    /// Only for want of memory.
    pub fn share(&self) -> Result<Memo<Q, V>, NoMemory>
        ensures { IfOk result (λ memo. memo ≡ self.now) }
    {
        Ok(Memo {
            found: Arc::try_clone(&self.found)?,
            stamp: self.stamp,
            verified: self.verified,
        })
    }

    /// The memo as known at another revision. It takes no memory.
    pub fn verified_at(self, revision: u64) -> Memo<Q, V>
        ensures { result ≡ record { finding = self.finding; verified = revision } }
    {
        let mut memo = self;
        memo.verified = revision;
        memo
    }

    /// The memo with another stamp. It takes no memory.
    pub fn stamped(self, stamp: u64) -> Memo<Q, V>
        ensures { result ≡ record { finding = record { key = self.finding.key; value = self.finding.value; stamp = stamp; reads = self.finding.reads }; verified = self.verified } }
    {
        let mut memo = self;
        memo.stamp = stamp;
        memo
    }
}
