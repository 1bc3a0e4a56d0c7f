use sve_bytes::Name;

/// A thing with a name, by which a table finds it.
pub trait Named {
    ghost use Rattle.std.specs.Prelude.{◌≡◌, List, ℕ};

    ghost called: { Self → List ℕ };

    /// The thing's name. It takes no memory.
    fn name(&self) -> &Name
        ensures { result.now ≡ called self.now };
}

/// A name is its own name, so that a set of names is a table of them.
impl Named for Name {
    ghost called = { λ n. n };

    fn name(&self) -> &Name {
        self
    }
}
