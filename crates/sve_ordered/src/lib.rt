//! Items in their order, each once.
#![tactic(auto)]

ghost use Rattle.std.specs.Prelude.{◌≡◌, ◌↔◌, List as Items, IfOk};
ghost use Rattle.std.specs.Cmp.{IsTotalOrder};
ghost use Rattle.std.specs.List.{Contains};
ghost use Rattle.std.specs.declared.cmp.Ordering.TheVariants.{Equal};
ghost use Rattle.sve_ordered.specs.Ordered.{ordered};

use sve_bytes::{List, NoMemory};

/// The items in their order, and each once, on condition that the order tells any two apart.
///
/// # Errors
/// For want of memory alone.
pub fn ordered<T: Ord + Drop>(items: Vec<T>) -> Result<List<T>, NoMemory>
    requires { (a b : T) → T.cmp a b ≡ Equal → a ≡ b }
    ensures { IfOk result (λ all. all ≡ ordered T.cmp items.items) }
{
    let mut all = items;
    all.sort()?;
    all.dedup();
    Ok(List::of(all))
}

/// Lists with the same members are the same where they are put in order.
pub fn members_decide_the_order<T: Ord>()
    ensures { ((a b : T) → T.cmp a b ≡ Equal → a ≡ b) → (items others : Items T) → ((item : T) → Contains items item ↔ Contains others item) → ordered T.cmp items ≡ ordered T.cmp others }
{}
