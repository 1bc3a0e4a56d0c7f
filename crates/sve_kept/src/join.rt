//! Memos that are put among others, unless those were verified later.
ghost use Rattle.std.specs.Prelude.{◌≡◌, IfOk, OnOk};
ghost use Rattle.sve_memo.specs.Memos.{memo_in};
ghost use Rattle.sve_kept.specs.Kept.{has_later, put_later, joined};

use std::alloc::Global;
use sve_bytes::NoMemory;
use sve_memo::{Memo, Memos};

/// Whether the memos have one of this memo's key that was verified later.
fn is_behind<Q: Ord + Drop, V: Drop>(memos: &Memos<Q, V>, memo: &Memo<Q, V>) -> bool
    ensures { result ≡ has_later (memo_in Q.cmp memos.now memo.now.finding.key) memo.now.verified }
{
    match memos.find(memo.key()) {
        Some(held) => memo.verified() < held.verified(),
        None => false,
    }
}

/// Puts a memo in, unless the one of its key was verified later.
fn put_one<Q: Ord + Drop, V: Drop>(
    alloc: Global,
    memos: &mut Memos<Q, V>,
    memo: &Memo<Q, V>,
) -> Result<(), NoMemory>
    ensures { OnOk result (memos.new ≡ put_later Q.cmp memo.now memos.old) }
{
    if is_behind(memos, memo) {
        return Ok(());
    }
    memos.put(alloc, memo.share()?)
}

/// The memos that are held with these put in, each unless the one of its key was verified later. All that stays is shared.
pub(crate) fn join_all<Q: Ord + Drop, V: Drop>(
    alloc: Global,
    held: &Memos<Q, V>,
    fresh: &[Memo<Q, V>],
) -> Result<Memos<Q, V>, NoMemory>
    ensures { IfOk result (λ memos. memos ≡ joined Q.cmp held.now fresh.now) }
{
    let mut memos = held.share()?;
    'joins: for memo in fresh {
        put_one(alloc, &mut memos, memo)?;
    }
    Ok(memos)
}
