//! Splices in trees.
ghost use Rattle.std.specs.Prelude.{◌≡◌, ◌+◌, ◌≤◌, ◌++◌, length, take, drop, IfOk};
ghost use Rattle.sve_rope.specs.Splice.{spliced};
ghost use Rattle.sve_rope.specs.Tree.{bytes_in, IsMeasured};

use crate::joining::join;
use crate::run::{MAX_COPIED, Run};
use crate::tree::{Branch, Tree, leaf};
use std::alloc::Global;
use sve_bytes::{List, NoMemory};

/// A splice of few bytes copies so many old ones on either side of them into the same leaf, or up to twice
/// as many where the run ends there. So leaves stay few however many splices there are.
const NEAR: usize = 256;

/// The bytes of a tree, with those of `new` in place of the `cut` bytes from offset `at` on.
pub(crate) fn splice(
    alloc: Global,
    old: &Tree,
    at: usize,
    cut: usize,
    new: &Tree,
) -> Result<Tree, NoMemory>
    requires old { IsMeasured old.now }
    requires new { IsMeasured new.now }
    requires within { at + cut ≤ length (bytes_in old.now) }
    ensures bytes { IfOk result (λ t. bytes_in t ≡ spliced at cut (bytes_in new.now) (bytes_in old.now)) }
    ensures measured { IfOk result IsMeasured }
{
    match old {
        Tree::Leaf(run) => splice_run(alloc, run, at, cut, new),
        Tree::Fork(branch) => {
            let branch: &Branch = branch;
            let left = branch.left.len();
            if at >= left {
                let right = splice(alloc, &branch.right, at - left, cut, new)?;
                return join(alloc, branch.left.share()?, right);
            }
            let cut_left = cut.min(left - at);
            let front = splice(alloc, &branch.left, at, cut_left, new)?;
            join(alloc, front, branch.right.behind(alloc, cut - cut_left)?)
        }
    }
}

/// The bytes of a run, with those of `new` in place of the `cut` bytes from offset `at` on.
fn splice_run(alloc: Global, old: &Run, at: usize, cut: usize, new: &Tree) -> Result<Tree, NoMemory>
    requires measured { IsMeasured new.now }
    requires within { at + cut ≤ length old.now }
    ensures bytes { IfOk result (λ t. bytes_in t ≡ spliced at cut (bytes_in new.now) old.now) }
    ensures measured { IfOk result IsMeasured }
{
    let len = old.len();
    let end = at + cut;
    if new.len() > MAX_COPIED {
        return enclose(alloc, old, at, new.share()?, end);
    }
    let from = near_before(at);
    let to = near_behind(end, len);
    let bytes = old.bytes();
    let middle = copied(alloc, &bytes[from..at], new, &bytes[end..to])?;
    enclose(alloc, old, from, middle, to)
}

/// Where the bytes that are copied before this offset begin.
fn near_before(at: usize) -> usize
    ensures { result ≤ at }
{
    if at <= 2 * NEAR { 0 } else { at - NEAR }
}

/// Where the bytes that are copied behind this offset end, in a run of this length.
fn near_behind(end: usize, len: usize) -> usize
    requires { end ≤ len }
    ensures order { end ≤ result }
    ensures within { result ≤ len }
{
    if len - end <= 2 * NEAR {
        len
    } else {
        end + NEAR
    }
}

/// One leaf of these bytes, those of `new` and these.
fn copied(alloc: Global, front: &[u8], new: &Tree, back: &[u8]) -> Result<Tree, NoMemory>
    requires { IsMeasured new.now }
    ensures bytes { IfOk result (λ t. bytes_in t ≡ front.now ++ bytes_in new.now ++ back.now) }
    ensures measured { IfOk result IsMeasured }
{
    let mut bytes = Vec::new(alloc);
    bytes.extend_from_slice(front)?;
    new.append_to(&mut bytes)?;
    bytes.extend_from_slice(back)?;
    leaf(alloc, List::of(bytes))
}

/// The bytes of a run before offset `from`, those of `middle`, and those of the run from offset `to` on.
fn enclose(alloc: Global, old: &Run, from: usize, middle: Tree, to: usize) -> Result<Tree, NoMemory>
    requires measured { IsMeasured middle }
    requires from { from ≤ length old.now }
    requires to { to ≤ length old.now }
    ensures bytes { IfOk result (λ t. bytes_in t ≡ take from old.now ++ bytes_in middle ++ drop to old.now) }
    ensures measured { IfOk result IsMeasured }
{
    let front = Tree::Leaf(old.part(alloc, 0, from)?);
    let back = Tree::Leaf(old.part(alloc, to, old.len())?);
    join(alloc, join(alloc, front, middle)?, back)
}
