ghost use Rattle.std.specs.Prelude.{◌≡◌, ◌↔◌, IsTrue};

/// What can be told apart from any other value of its type.
pub trait Same {
    ghost use Rattle.std.specs.Prelude.{◌≡◌, ◌↔◌, IsTrue};

    /// Whether the two are one value. It takes no memory.
    fn same(&self, other: &Self) -> bool
        ensures { IsTrue result ↔ (self.now ≡ other.now) };
}

/// Whether two lists have the same items in the same order. It takes no memory.
pub fn same_items<T: Same>(items: &[T], others: &[T]) -> bool
    ensures { IsTrue result ↔ (items.now ≡ others.now) }
{
    if items.len() != others.len() {
        return false;
    }
    'items: for (i, item) in items.iter().enumerate() {
        if !item.same(&others[i]) {
            return false;
        }
    }
    true
}
