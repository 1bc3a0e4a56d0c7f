use sve_bytes::Name;

/// What a design is that is no package.
#[derive(Clone, Copy, PartialEq, Eq)]
pub enum DesignKind {
    /// A module (IEEE 1800-2017, clause 23).
    Module,
    /// An interface (clause 25).
    Interface,
}

/// Which modules and interfaces there are.
pub trait Interfaces {
    ghost use Rattle.std.specs.Prelude.{◌≡◌, List, Option, ℕ};
    ghost use Rattle.sve_port.specs.declared.interfaces.DesignKind.{DesignKind};

    // What each name is.
    ghost kinds: { Self → List ℕ → Option DesignKind };

    /// What the module or the interface of a name is, where there is one.
    fn kind(&self, name: &Name) -> Option<DesignKind>
        ensures { result ≡ kinds self.now name.now };
}
