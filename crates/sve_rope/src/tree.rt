//! Runs of bytes in a height-balanced tree, whose versions share what they have in common. Balance is a
//! matter of speed alone, so no contract speaks of heights.
ghost use Rattle.std.specs.Prelude.{◌≡◌, ◌+◌, ◌<◌, ◌≤◌, ◌^◌, ◌++◌, length, take, drop, IfOk, OnOk};
ghost use Rattle.sve_rope.specs.Tree.{bytes_in, IsMeasured};

use crate::joining::join;
use crate::run::Run;
use std::alloc::{AllocError, Global};
use std::sync::Arc;
use sve_bytes::{List, NoMemory};

/// Bytes in their order: those of a run, or those of two trees.
#[cycle(tree)]
#[derive(Drop)]
pub(crate) enum Tree {
    Leaf(Run),
    Fork(Arc<Branch>),
}

/// Two trees, one behind the other. The height is the number of forks on the longest way down, this one
/// included.
#[cycle(tree)]
#[derive(Drop)]
pub(crate) struct Branch {
    pub(crate) left: Tree,
    pub(crate) right: Tree,
    len: usize,
    height: u8,
}

impl Tree {
    /// The same tree, shared.
    pub(crate) fn share(&self) -> Result<Tree, NoMemory>
        requires { IsMeasured self.now }
        ensures bytes { IfOk result (λ t. bytes_in t ≡ bytes_in self.now) }
        ensures measured { IfOk result IsMeasured }
    {
        match self {
            Tree::Leaf(run) => Ok(Tree::Leaf(run.share()?)),
            Tree::Fork(branch) => Ok(Tree::Fork(Arc::try_clone(branch)?)),
        }
    }

    /// The number of bytes.
    pub(crate) fn len(&self) -> usize
        requires { IsMeasured self.now }
        ensures len { result ≡ length (bytes_in self.now) }
        ensures fits { result < 2 ^ 63 }
    {
        match self {
            Tree::Leaf(run) => run.len(),
            Tree::Fork(branch) => branch.len,
        }
    }

    /// The number of forks on the longest way down, 0 to 255.
    pub(crate) fn height(&self) -> u8 {
        match self {
            Tree::Leaf(_) => 0,
            Tree::Fork(branch) => branch.height,
        }
    }

    /// Some of the bytes from this offset on, at least one.
    pub(crate) fn run(&self, at: usize) -> &[u8]
        requires measured { IsMeasured self.now }
        requires within { at < length (bytes_in self.now) }
        ensures some { 0 < length result.now }
        ensures run { result.now ≡ take (length result.now) (drop at (bytes_in self.now)) }
    {
        match self {
            Tree::Leaf(run) => &run.bytes()[at..],
            Tree::Fork(branch) => {
                let branch: &Branch = branch;
                let left = branch.left.len();
                if at < left {
                    branch.left.run(at)
                } else {
                    branch.right.run(at - left)
                }
            }
        }
    }

    /// The bytes behind the first `n`.
    pub(crate) fn behind(&self, alloc: Global, n: usize) -> Result<Tree, NoMemory>
        requires measured { IsMeasured self.now }
        requires within { n ≤ length (bytes_in self.now) }
        ensures bytes { IfOk result (λ t. bytes_in t ≡ drop n (bytes_in self.now)) }
        ensures measured { IfOk result IsMeasured }
    {
        match self {
            Tree::Leaf(run) => Ok(Tree::Leaf(run.part(alloc, n, run.len())?)),
            Tree::Fork(branch) => {
                let branch: &Branch = branch;
                let left = branch.left.len();
                if n < left {
                    join(alloc, branch.left.behind(alloc, n)?, branch.right.share()?)
                } else {
                    branch.right.behind(alloc, n - left)
                }
            }
        }
    }

    /// Adds the bytes to these.
    pub(crate) fn append_to(&self, out: &mut Vec<u8>) -> Result<(), NoMemory>
        requires { IsMeasured self.now }
        ensures { OnOk result (out.new.items ≡ out.old.items ++ bytes_in self.now) }
    {
        match self {
            Tree::Leaf(run) => out.extend_from_slice(run.bytes()),
            Tree::Fork(branch) => {
                let branch: &Branch = branch;
                branch.left.append_to(out)?;
                branch.right.append_to(out)
            }
        }
    }
}

/// The tree of these bytes, which are moved and not copied.
pub(crate) fn leaf(alloc: Global, bytes: List<u8>) -> Result<Tree, NoMemory>
    ensures bytes { IfOk result (λ t. bytes_in t ≡ bytes) }
    ensures measured { IfOk result IsMeasured }
{
    Ok(Tree::Leaf(Run::of(alloc, bytes)?))
}

/// A tree with these sides. Sides that share most of what they have may have more bytes together than
/// any memory holds; then there is none.
pub(crate) fn fork(alloc: Global, left: Tree, right: Tree) -> Result<Tree, NoMemory>
    requires left { IsMeasured left }
    requires right { IsMeasured right }
    ensures bytes { IfOk result (λ t. bytes_in t ≡ bytes_in left ++ bytes_in right) }
    ensures measured { IfOk result IsMeasured }
{
    let len = left.len() + right.len();
    if len > isize::MAX as usize {
        return Err(AllocError);
    }
    let height = left.height().max(right.height()).saturating_add(1);
    let branch = Branch {
        left,
        right,
        len,
        height,
    };
    Ok(Tree::Fork(Arc::new(alloc, branch)?))
}
