//! Memos in a height-balanced search tree, whose versions share what they have in common. Balance is a matter of speed
//! alone, so no contract speaks of heights.
ghost use Rattle.std.specs.Prelude.{◌≡◌, ◌∷◌, ◌++◌, IfOk, OnOk, option_map};
ghost use Rattle.sve_memo.specs.Memos.{memo_in, put_memo, IsInOrder};
ghost use Rattle.sve_memo.specs.Trees.{memos_of};

use crate::memo::Memo;
use std::alloc::Global;
use std::cmp::Ordering;
use std::sync::Arc;
use sve_bytes::NoMemory;

/// Memos in the order of their keys.
#[cycle(tree)]
#[derive(Drop)]
pub(crate) enum Tree<Q, V> {
    Leaf,
    Fork(Arc<Branch<Q, V>>),
}

/// A memo between those that come before it and those that come after it. The height is the number of memos on the
/// longest way down, this one included.
#[cycle(tree)]
#[derive(Drop)]
pub(crate) struct Branch<Q, V> {
    left: Tree<Q, V>,
    memo: Memo<Q, V>,
    right: Tree<Q, V>,
    height: u8,
}

impl<Q: Drop, V: Drop> Tree<Q, V> {
    /// The same tree, which shares all its branches.
    pub(crate) fn share(&self) -> Result<Tree<Q, V>, NoMemory>
        ensures { IfOk result (λ tree. memos_of tree ≡ memos_of self.now) }
    {
        match self {
            Tree::Leaf => Ok(Tree::Leaf),
            Tree::Fork(branch) => Ok(Tree::Fork(Arc::try_clone(branch)?)),
        }
    }

    /// The number of memos on the longest way down, 0 to 255.
    fn height(&self) -> u8 {
        match self {
            Tree::Leaf => 0,
            Tree::Fork(branch) => branch.height,
        }
    }

    /// Adds the memos of the tree, in order, behind those that are there. They share what was found.
    pub(crate) fn list(&self, memos: &mut Vec<Memo<Q, V>>) -> Result<(), NoMemory>
        ensures { OnOk result (memos.new.items ≡ memos.old.items ++ memos_of self.now) }
    {
        match self {
            Tree::Leaf => Ok(()),
            Tree::Fork(branch) => {
                let branch: &Branch<Q, V> = branch;
                branch.left.list(memos)?;
                memos.push(branch.memo.share()?)?;
                branch.right.list(memos)
            }
        }
    }
}

impl<Q: Ord + Drop, V: Drop> Tree<Q, V> {
    /// The memo of a key, if there is one.
    pub(crate) fn find(&self, key: &Q) -> Option<&Memo<Q, V>>
        requires { IsInOrder Q.cmp (memos_of self.now) }
        ensures { option_map (λ memo. memo.now) result ≡ memo_in Q.cmp (memos_of self.now) key.now }
    {
        match self {
            Tree::Leaf => None,
            Tree::Fork(branch) => {
                let branch: &Branch<Q, V> = branch;
                match key.cmp(branch.memo.key()) {
                    Ordering::Less => branch.left.find(key),
                    Ordering::Equal => Some(&branch.memo),
                    Ordering::Greater => branch.right.find(key),
                }
            }
        }
    }

    /// The tree with this memo at its key, and all other memos as they are. What the memo does not change is shared with
    /// this tree.
    pub(crate) fn put(&self, alloc: Global, memo: Memo<Q, V>) -> Result<Tree<Q, V>, NoMemory>
        requires { IsInOrder Q.cmp (memos_of self.now) }
        ensures { IfOk result (λ tree. memos_of tree ≡ put_memo Q.cmp memo (memos_of self.now)) }
    {
        match self {
            Tree::Leaf => fork(alloc, Tree::Leaf, memo, Tree::Leaf),
            Tree::Fork(branch) => {
                let branch: &Branch<Q, V> = branch;
                match memo.key().cmp(branch.memo.key()) {
                    Ordering::Less => {
                        let left = branch.left.put(alloc, memo)?;
                        balance(alloc, &left, &branch.memo, &branch.right)
                    }
                    Ordering::Equal => above(alloc, &branch.left, &memo, &branch.right),
                    Ordering::Greater => {
                        let right = branch.right.put(alloc, memo)?;
                        balance(alloc, &branch.left, &branch.memo, &right)
                    }
                }
            }
        }
    }
}

/// A tree with this memo above these sides.
fn fork<Q: Drop, V: Drop>(
    alloc: Global,
    left: Tree<Q, V>,
    memo: Memo<Q, V>,
    right: Tree<Q, V>,
) -> Result<Tree<Q, V>, NoMemory>
    ensures { IfOk result (λ tree. memos_of tree ≡ memos_of left ++ memo ∷ memos_of right) }
{
    let height = left.height().max(right.height()).saturating_add(1);
    let branch = Branch {
        left,
        memo,
        right,
        height,
    };
    Ok(Tree::Fork(Arc::new(alloc, branch)?))
}

/// A tree that shares this memo above what it shares of these sides.
fn above<Q: Drop, V: Drop>(
    alloc: Global,
    left: &Tree<Q, V>,
    memo: &Memo<Q, V>,
    right: &Tree<Q, V>,
) -> Result<Tree<Q, V>, NoMemory>
    ensures { IfOk result (λ tree. memos_of tree ≡ memos_of left.now ++ memo.now ∷ memos_of right.now) }
{
    let memo = memo.share()?;
    let left = left.share()?;
    fork(alloc, left, memo, right.share()?)
}

/// A fork whose sides differ in height by at most one, where these differ by at most two.
fn balance<Q: Drop, V: Drop>(
    alloc: Global,
    left: &Tree<Q, V>,
    memo: &Memo<Q, V>,
    right: &Tree<Q, V>,
) -> Result<Tree<Q, V>, NoMemory>
    ensures { IfOk result (λ tree. memos_of tree ≡ memos_of left.now ++ memo.now ∷ memos_of right.now) }
{
    let (left_height, right_height) = (left.height(), right.height());
    if left_height > right_height.saturating_add(1) {
        rotate_right(alloc, left, memo, right)
    } else if right_height > left_height.saturating_add(1) {
        rotate_left(alloc, left, memo, right)
    } else {
        above(alloc, left, memo, right)
    }
}

/// The same memos with the top of the left side above them, or what is between that and the memo.
fn rotate_right<Q: Drop, V: Drop>(
    alloc: Global,
    left: &Tree<Q, V>,
    memo: &Memo<Q, V>,
    right: &Tree<Q, V>,
) -> Result<Tree<Q, V>, NoMemory>
    ensures { IfOk result (λ tree. memos_of tree ≡ memos_of left.now ++ memo.now ∷ memos_of right.now) }
{
    let Tree::Fork(top) = left else {
        return above(alloc, left, memo, right);
    };
    let top: &Branch<Q, V> = top;
    if let Tree::Fork(middle) = &top.right
        && top.left.height() < top.right.height()
    {
        let middle: &Branch<Q, V> = middle;
        let low = above(alloc, &top.left, &top.memo, &middle.left)?;
        let high = above(alloc, &middle.right, memo, right)?;
        return above(alloc, &low, &middle.memo, &high);
    }
    let high = above(alloc, &top.right, memo, right)?;
    above(alloc, &top.left, &top.memo, &high)
}

/// The same memos with the top of the right side above them, or what is between the memo and that.
fn rotate_left<Q: Drop, V: Drop>(
    alloc: Global,
    left: &Tree<Q, V>,
    memo: &Memo<Q, V>,
    right: &Tree<Q, V>,
) -> Result<Tree<Q, V>, NoMemory>
    ensures { IfOk result (λ tree. memos_of tree ≡ memos_of left.now ++ memo.now ∷ memos_of right.now) }
{
    let Tree::Fork(top) = right else {
        return above(alloc, left, memo, right);
    };
    let top: &Branch<Q, V> = top;
    if let Tree::Fork(middle) = &top.left
        && top.right.height() < top.left.height()
    {
        let middle: &Branch<Q, V> = middle;
        let low = above(alloc, left, memo, &middle.left)?;
        let high = above(alloc, &middle.right, &top.memo, &top.right)?;
        return above(alloc, &low, &middle.memo, &high);
    }
    let low = above(alloc, left, memo, &top.left)?;
    above(alloc, &low, &top.memo, &top.right)
}
