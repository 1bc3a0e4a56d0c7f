//! Trees put together, so that the whole stays balanced.
ghost use Rattle.std.specs.Prelude.{◌≡◌, ◌++◌, IfOk};
ghost use Rattle.sve_rope.specs.Tree.{bytes_in, IsMeasured};

use crate::tree::{Branch, Tree, fork};
use std::alloc::Global;
use sve_bytes::NoMemory;

/// The bytes of one tree before those of another. A side without bytes leaves nothing behind.
pub(crate) fn join(alloc: Global, left: Tree, right: Tree) -> Result<Tree, NoMemory>
    requires left { IsMeasured left }
    requires right { IsMeasured right }
    ensures bytes { IfOk result (λ t. bytes_in t ≡ bytes_in left ++ bytes_in right) }
    ensures measured { IfOk result IsMeasured }
{
    if left.len() == 0 {
        return Ok(right);
    }
    if right.len() == 0 {
        return Ok(left);
    }
    join_filled(alloc, &left, &right)
}

/// A tree with what it shares of these sides.
fn both(alloc: Global, left: &Tree, right: &Tree) -> Result<Tree, NoMemory>
    requires left { IsMeasured left.now }
    requires right { IsMeasured right.now }
    ensures bytes { IfOk result (λ t. bytes_in t ≡ bytes_in left.now ++ bytes_in right.now) }
    ensures measured { IfOk result IsMeasured }
{
    let left = left.share()?;
    fork(alloc, left, right.share()?)
}

/// The same where both have bytes: the lower tree takes its place on the near side of the higher one,
/// as far down as the two differ in height.
fn join_filled(alloc: Global, left: &Tree, right: &Tree) -> Result<Tree, NoMemory>
    requires left { IsMeasured left.now }
    requires right { IsMeasured right.now }
    ensures bytes { IfOk result (λ t. bytes_in t ≡ bytes_in left.now ++ bytes_in right.now) }
    ensures measured { IfOk result IsMeasured }
{
    match (left, right) {
        (Tree::Fork(top), _) if left.height() > right.height() => {
            let top: &Branch = top;
            let low = join_filled(alloc, &top.right, right)?;
            balance(alloc, &top.left, &low)
        }
        (_, Tree::Fork(top)) if left.height() < right.height() => {
            let top: &Branch = top;
            let low = join_filled(alloc, left, &top.left)?;
            balance(alloc, &low, &top.right)
        }
        _ => both(alloc, left, right),
    }
}

/// A fork whose sides differ in height by at most one, where these differ by at most two.
fn balance(alloc: Global, left: &Tree, right: &Tree) -> Result<Tree, NoMemory>
    requires left { IsMeasured left.now }
    requires right { IsMeasured right.now }
    ensures bytes { IfOk result (λ t. bytes_in t ≡ bytes_in left.now ++ bytes_in right.now) }
    ensures measured { IfOk result IsMeasured }
{
    let (left_height, right_height) = (left.height(), right.height());
    if left_height > right_height.saturating_add(1) {
        rotate_right(alloc, left, right)
    } else if right_height > left_height.saturating_add(1) {
        rotate_left(alloc, left, right)
    } else {
        both(alloc, left, right)
    }
}

/// The same bytes with the left part of the left side beside all others, or what lies between its parts.
fn rotate_right(alloc: Global, left: &Tree, right: &Tree) -> Result<Tree, NoMemory>
    requires left { IsMeasured left.now }
    requires right { IsMeasured right.now }
    ensures bytes { IfOk result (λ t. bytes_in t ≡ bytes_in left.now ++ bytes_in right.now) }
    ensures measured { IfOk result IsMeasured }
{
    let Tree::Fork(top) = left else {
        return both(alloc, left, right);
    };
    let top: &Branch = top;
    if let Tree::Fork(middle) = &top.right
        && top.left.height() < top.right.height()
    {
        let middle: &Branch = middle;
        let low = both(alloc, &top.left, &middle.left)?;
        let high = both(alloc, &middle.right, right)?;
        return fork(alloc, low, high);
    }
    let high = both(alloc, &top.right, right)?;
    both(alloc, &top.left, &high)
}

/// The same bytes with the right part of the right side beside all others, or what lies between its parts.
fn rotate_left(alloc: Global, left: &Tree, right: &Tree) -> Result<Tree, NoMemory>
    requires left { IsMeasured left.now }
    requires right { IsMeasured right.now }
    ensures bytes { IfOk result (λ t. bytes_in t ≡ bytes_in left.now ++ bytes_in right.now) }
    ensures measured { IfOk result IsMeasured }
{
    let Tree::Fork(top) = right else {
        return both(alloc, left, right);
    };
    let top: &Branch = top;
    if let Tree::Fork(middle) = &top.left
        && top.right.height() < top.left.height()
    {
        let middle: &Branch = middle;
        let low = both(alloc, left, &middle.left)?;
        let high = both(alloc, &middle.right, &top.right)?;
        return fork(alloc, low, high);
    }
    let low = both(alloc, left, &top.left)?;
    both(alloc, &low, &top.right)
}
