ghost use Rattle.std.specs.Prelude.{◌≡◌};

/// A list with a separator between each two items, and so with one separator fewer than items: `a, b, c`. A row that has no
/// item, or as many separators as no list has, is shown as a tree that no reading gives; where a list may be left out, the row
/// without items stands for none.
pub struct Row<T, S = u32> {
    /// The items, in order.
    pub items: Vec<T>,
    /// The separators between them, in order: commas, where nothing else is said.
    pub separators: Vec<S>,
}

impl<T: Drop, S: Drop> Drop for Row<T, S> {
    fn drop(self) {
        let Row {
            items: _,
            separators: _,
        } = self;
    }
}

impl<T, S> Row<T, S> {
    /// The items, in order. It takes no memory.
    pub fn as_slice(&self) -> &[T]
        ensures { result.now ≡ self.now.items.items }
    {
        self.items.as_slice()
    }
}
