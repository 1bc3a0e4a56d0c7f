//! Bytes that lie in one piece, shared by all texts that have them.
ghost use Rattle.std.specs.Prelude.{◌≡◌, ◌-◌, ◌<◌, ◌≤◌, ◌^◌, length, take, drop, IfOk, IfSome};
ghost use Rattle.std.specs.Arc.{arc_value};

use std::alloc::Global;
use std::marker::Model;
use std::sync::Arc;
use sve_bytes::{List, NoMemory};

/// No more bytes than these are copied where they could be shared: so few keep no large text in memory.
pub(crate) const MAX_COPIED: usize = 1_024;

/// Bytes that contracts see as they are: `len` of those that are held, from offset `start` on.
#[derive(Drop)]
pub(crate) struct Run {
    held: Arc<List<u8>>,
    start: usize,
    len: usize,
}

impl Model for Run {
    ghost use Rattle.std.specs.Prelude.{ℕ, ◌+◌, ◌≤◌, ◌<◌, ◌^◌, List, length, take, drop};
    ghost use Rattle.std.specs.Arc.{arc_value};

    ghost Value = { List ℕ };

    ghost view = { λ r. take r.len (drop r.start (arc_value r.held)) };

    ghost invariant = { λ r. (r.start + r.len ≤ length (arc_value r.held)) × (r.start + r.len < 2 ^ 63) };
}

impl Run {
    /// These bytes, which are moved and not copied.
    pub(crate) fn of(alloc: Global, bytes: List<u8>) -> Result<Run, NoMemory>
        ensures { IfOk result (λ r. r ≡ bytes) }
    {
        let len = bytes.items().len();
        Ok(Run {
            held: Arc::new(alloc, bytes)?,
            start: 0,
            len,
        })
    }

    /// The number of bytes.
    pub(crate) fn len(&self) -> usize
        ensures len { result ≡ length self.now }
        ensures fits { result < 2 ^ 63 }
    {
        self.len
    }

    /// The bytes.
    pub(crate) fn bytes(&self) -> &[u8]
        ensures { result.now ≡ self.now }
    {
        &self.held.items()[self.start..self.start + self.len]
    }

    /// The same bytes, shared.
    pub(crate) fn share(&self) -> Result<Run, NoMemory>
        ensures { IfOk result (λ r. r ≡ self.now) }
    {
        Ok(Run {
            held: Arc::try_clone(&self.held)?,
            start: self.start,
            len: self.len,
        })
    }

    /// The bytes from offset `from` up to offset `to`, copied where they are few, else shared.
    pub(crate) fn part(&self, alloc: Global, from: usize, to: usize) -> Result<Run, NoMemory>
        requires order { from ≤ to }
        requires within { to ≤ length self.now }
        ensures { IfOk result (λ r. r ≡ take (to - from) (drop from self.now)) }
    {
        if to - from <= MAX_COPIED {
            let mut bytes = Vec::new(alloc);
            bytes.extend_from_slice(&self.bytes()[from..to])?;
            return Run::of(alloc, List::of(bytes));
        }
        Ok(Run {
            held: Arc::try_clone(&self.held)?,
            start: self.start + from,
            len: to - from,
        })
    }

    /// What holds the bytes, shared, where it holds no others.
    pub(crate) fn whole(&self) -> Result<Option<Arc<List<u8>>>, NoMemory>
        ensures { IfOk result (λ held. IfSome held (λ held. arc_value held ≡ self.now)) }
    {
        if self.start == 0 && self.len == self.held.items().len() {
            Ok(Some(Arc::try_clone(&self.held)?))
        } else {
            Ok(None)
        }
    }
}
