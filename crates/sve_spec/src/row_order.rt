ghost use Rattle.std.specs.Prelude.{◌≡◌};
ghost use Rattle.sve_bytes.specs.TreeOrder.{tree_cmp};
ghost use Rattle.sve_spec.specs.Trees.{list_tree};

use std::cmp::Ordering;

/// What is ordered by a tree of numbers.
pub(crate) trait InOrder {
    ghost use Rattle.std.specs.Prelude.{◌≡◌};
    ghost use base.Stored.{Gv};
    ghost use Rattle.sve_bytes.specs.TreeOrder.{tree_cmp};

    ghost tree: { Self → Gv };

    /// How it stands to another.
    fn order(&self, other: &Self) -> Ordering
        ensures { result ≡ tree_cmp (tree self.now) (tree other.now) };
}

/// How a row of things stands to another: by the first place at which they differ, and a row before those that it begins.
pub(crate) fn row_order<T: InOrder>(row: &[T], other: &[T]) -> Ordering
    ensures { result ≡ tree_cmp (list_tree T.tree row.now) (list_tree T.tree other.now) }
{
    'items: for (place, item) in row.iter().enumerate() {
        let Some(opposite) = other.get(place) else {
            return Ordering::Greater;
        };
        let order = item.order(opposite);
        if order.is_ne() {
            return order;
        }
    }
    if row.len() < other.len() {
        Ordering::Less
    } else {
        Ordering::Equal
    }
}
