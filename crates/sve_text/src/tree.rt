//! Rows in a height-balanced search tree, whose versions share what they have in common. Balance is a
//! matter of speed alone, so no contract speaks of heights.
ghost use Rattle.std.specs.Prelude.{◌≡◌, ◌+◌, ◌<◌, ◌∷◌, ◌++◌, Some, IfOk, option_map, slice_get};
ghost use Rattle.sve_text.specs.Rows.{row_of, text_of, names_in, count, is_there, put_row, IsInOrder};
ghost use Rattle.sve_text.specs.Tree.{rows_in, IsCounted};

use crate::row::StoredRow;
use std::alloc::{AllocError, Global};
use std::cmp::Ordering;
use std::sync::Arc;
use sve_bytes::{Name, NoMemory};
use sve_rope::Text;

/// Rows in byte order of their names.
#[cycle(tree)]
#[derive(Drop)]
pub(crate) enum Tree {
    Leaf,
    Fork(Arc<Branch>),
}

/// A row between those that come before it and those that come after it. The height is the number of
/// rows on the longest way down, this one included, and `files` is how many of all these rows have a
/// text.
#[cycle(tree)]
#[derive(Drop)]
pub(crate) struct Branch {
    left: Tree,
    row: StoredRow,
    right: Tree,
    height: u8,
    files: usize,
}

impl Tree {
    /// The same tree, which shares all its branches.
    pub(crate) fn share(&self) -> Result<Tree, NoMemory>
        requires { IsCounted self.now }
        ensures rows { IfOk result (λ t. rows_in t ≡ rows_in self.now) }
        ensures counted { IfOk result IsCounted }
    {
        match self {
            Tree::Leaf => Ok(Tree::Leaf),
            Tree::Fork(branch) => Ok(Tree::Fork(Arc::try_clone(branch)?)),
        }
    }

    /// The number of rows on the longest way down, 0 to 255.
    fn height(&self) -> u8 {
        match self {
            Tree::Leaf => 0,
            Tree::Fork(branch) => branch.height,
        }
    }

    /// How many files are there.
    pub(crate) fn count(&self) -> usize
        requires { IsCounted self.now }
        ensures { result ≡ count (rows_in self.now) }
    {
        match self {
            Tree::Leaf => 0,
            Tree::Fork(branch) => branch.files,
        }
    }

    /// The name of the file at this place, from 0, in the order of the rows.
    #[tactic(auto, using(crate::proofs::Names::at_names))]
    pub(crate) fn name_at(&self, i: usize) -> &Name
        requires counted { IsCounted self.now }
        requires in_count { i < count (rows_in self.now) }
        ensures { slice_get (names_in (rows_in self.now)) i ≡ Some result.now }
    {
        match self {
            Tree::Leaf => unreachable!(),
            Tree::Fork(branch) => {
                let branch: &Branch = branch;
                let before = branch.left.count();
                let here = usize::from(branch.row.text.is_some());
                if i < before {
                    branch.left.name_at(i)
                } else if i - before < here {
                    &branch.row.name
                } else {
                    branch.right.name_at(i - before - here)
                }
            }
        }
    }

    /// The row of a name, where the name was touched.
    #[tactic(auto, using(crate::proofs::Order::at_fork))]
    pub(crate) fn find(&self, name: &Name) -> Option<&StoredRow>
        requires { IsInOrder (rows_in self.now) }
        ensures { option_map (λ row. row.now) result ≡ row_of (rows_in self.now) name.now }
    {
        match self {
            Tree::Leaf => None,
            Tree::Fork(branch) => {
                let branch: &Branch = branch;
                match name.cmp(&branch.row.name) {
                    Ordering::Less => branch.left.find(name),
                    Ordering::Equal => Some(&branch.row),
                    Ordering::Greater => branch.right.find(name),
                }
            }
        }
    }

    /// The text of a file, where it is there.
    pub(crate) fn text(&self, name: &Name) -> Option<&Text>
        requires { IsInOrder (rows_in self.now) }
        ensures { option_map (λ text. text.now) result ≡ text_of (rows_in self.now) name.now }
    {
        match self.find(name) {
            Some(row) => row.text.as_ref(),
            None => None,
        }
    }

    /// Whether a file of this name is there.
    pub(crate) fn is_there(&self, name: &Name) -> bool
        requires { IsInOrder (rows_in self.now) }
        ensures { result ≡ is_there (rows_in self.now) name.now }
    {
        match self.find(name) {
            Some(row) => row.text.is_some(),
            None => false,
        }
    }

    /// The tree with this row at its name, and all other rows as they are. What the row does not
    /// change is shared with this tree.
    #[tactic(auto, using(crate::proofs::Order::at_fork))]
    pub(crate) fn put(&self, alloc: Global, row: StoredRow) -> Result<Tree, NoMemory>
        requires in_order { IsInOrder (rows_in self.now) }
        requires counted { IsCounted self.now }
        ensures rows { IfOk result (λ t. rows_in t ≡ put_row row (rows_in self.now)) }
        ensures counted { IfOk result IsCounted }
    {
        match self {
            Tree::Leaf => fork(alloc, Tree::Leaf, row, Tree::Leaf),
            Tree::Fork(branch) => {
                let branch: &Branch = branch;
                match row.name.cmp(&branch.row.name) {
                    Ordering::Less => {
                        let left = branch.left.put(alloc, row)?;
                        balance(alloc, &left, &branch.row, &branch.right)
                    }
                    Ordering::Equal => above(alloc, &branch.left, &row, &branch.right),
                    Ordering::Greater => {
                        let right = branch.right.put(alloc, row)?;
                        balance(alloc, &branch.left, &branch.row, &right)
                    }
                }
            }
        }
    }
}

/// A tree with this row above these sides.
#[tactic(auto, using(crate::proofs::Names::at_names))]
fn fork(alloc: Global, left: Tree, row: StoredRow, right: Tree) -> Result<Tree, NoMemory>
    requires left { IsCounted left }
    requires right { IsCounted right }
    ensures rows { IfOk result (λ t. rows_in t ≡ rows_in left ++ row ∷ rows_in right) }
    ensures counted { IfOk result IsCounted }
{
    let height = left.height().max(right.height()).saturating_add(1);
    let files = sum(left.count(), usize::from(row.text.is_some()), right.count())?;
    let branch = Branch {
        left,
        row,
        right,
        height,
        files,
    };
    Ok(Tree::Fork(Arc::new(alloc, branch)?))
}

/// The sum of three counts. No memory holds so many files that it does not fit.
fn sum(left: usize, here: usize, right: usize) -> Result<usize, NoMemory>
    ensures { IfOk result (λ sum. sum ≡ left + (here + right)) }
{
    let both = here.checked_add(right).ok_or(AllocError)?;
    left.checked_add(both).ok_or(AllocError)
}

/// A tree that shares this row above what it shares of these sides.
fn above(alloc: Global, left: &Tree, row: &StoredRow, right: &Tree) -> Result<Tree, NoMemory>
    requires left { IsCounted left.now }
    requires right { IsCounted right.now }
    ensures rows { IfOk result (λ t. rows_in t ≡ rows_in left.now ++ row.now ∷ rows_in right.now) }
    ensures counted { IfOk result IsCounted }
{
    let row = row.share()?;
    let left = left.share()?;
    fork(alloc, left, row, right.share()?)
}

/// A fork whose sides differ in height by at most one, where these differ by at most two.
fn balance(alloc: Global, left: &Tree, row: &StoredRow, right: &Tree) -> Result<Tree, NoMemory>
    requires left { IsCounted left.now }
    requires right { IsCounted right.now }
    ensures rows { IfOk result (λ t. rows_in t ≡ rows_in left.now ++ row.now ∷ rows_in right.now) }
    ensures counted { IfOk result IsCounted }
{
    let (left_height, right_height) = (left.height(), right.height());
    if left_height > right_height.saturating_add(1) {
        rotate_right(alloc, left, row, right)
    } else if right_height > left_height.saturating_add(1) {
        rotate_left(alloc, left, row, right)
    } else {
        above(alloc, left, row, right)
    }
}

/// The same rows with the top of the left side above them, or what is between that and the row.
fn rotate_right(alloc: Global, left: &Tree, row: &StoredRow, right: &Tree) -> Result<Tree, NoMemory>
    requires left { IsCounted left.now }
    requires right { IsCounted right.now }
    ensures rows { IfOk result (λ t. rows_in t ≡ rows_in left.now ++ row.now ∷ rows_in right.now) }
    ensures counted { IfOk result IsCounted }
{
    let Tree::Fork(top) = left else {
        return above(alloc, left, row, right);
    };
    let top: &Branch = top;
    if let Tree::Fork(middle) = &top.right
        && top.left.height() < top.right.height()
    {
        let middle: &Branch = middle;
        let low = above(alloc, &top.left, &top.row, &middle.left)?;
        let high = above(alloc, &middle.right, row, right)?;
        return above(alloc, &low, &middle.row, &high);
    }
    let high = above(alloc, &top.right, row, right)?;
    above(alloc, &top.left, &top.row, &high)
}

/// The same rows with the top of the right side above them, or what is between the row and that.
fn rotate_left(alloc: Global, left: &Tree, row: &StoredRow, right: &Tree) -> Result<Tree, NoMemory>
    requires left { IsCounted left.now }
    requires right { IsCounted right.now }
    ensures rows { IfOk result (λ t. rows_in t ≡ rows_in left.now ++ row.now ∷ rows_in right.now) }
    ensures counted { IfOk result IsCounted }
{
    let Tree::Fork(top) = right else {
        return above(alloc, left, row, right);
    };
    let top: &Branch = top;
    if let Tree::Fork(middle) = &top.left
        && top.right.height() < top.left.height()
    {
        let middle: &Branch = middle;
        let low = above(alloc, left, row, &middle.left)?;
        let high = above(alloc, &middle.right, &top.row, &top.right)?;
        return above(alloc, &low, &middle.row, &high);
    }
    let low = above(alloc, left, row, &top.left)?;
    above(alloc, &low, &top.row, &top.right)
}
