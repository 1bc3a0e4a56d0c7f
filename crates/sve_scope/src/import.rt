ghost use Rattle.std.specs.Prelude.{◌≡◌, option_map};
ghost use Rattle.std.specs.Arc.{arc_value};
ghost use Rattle.sve_scope.specs.Spots.{spot};
ghost use Rattle.sve_scope.specs.Lookup.{candidate};

use crate::Spot;
use std::marker::Model;
use std::sync::Arc;
use sve_bytes::Name;
use sve_table::{Named, Table};

/// An import of one name of a package, as `import p::x` (IEEE 1800-2017, 26.3).
pub struct Explicit {
    /// The name.
    pub name: Name,
    /// The package.
    pub from: Name,
    /// Where the import stands.
    pub at: Spot,
}

impl Drop for Explicit {
    fn drop(self) {
        let Explicit {
            name: _,
            from: _,
            at: _,
        } = self;
    }
}

/// An import of all names of a package, as `import p::*` (26.3), with the names that the package has. A clause sees the names
/// themselves, which all imports of the package share.
pub struct Wildcard {
    from: Name,
    names: Arc<Table<Name>>,
    at: Spot,
}

impl Drop for Wildcard {
    fn drop(self) {
        let Wildcard {
            from: _,
            names: _,
            at: _,
        } = self;
    }
}

impl Model for Wildcard {
    ghost use Rattle.std.specs.Arc.{arc_value};
    ghost use Rattle.sve_scope.specs.Imports.{WildcardImport};

    ghost Value = { WildcardImport };

    ghost view = { λ w. record { from = w.from; names = arc_value w.names; at = w.at } };
}

impl Named for Explicit {
    ghost called = { λ i. i.name };

    fn name(&self) -> &Name {
        &self.name
    }
}

impl Named for Wildcard {
    ghost called = { λ w. w.from };

    fn name(&self) -> &Name {
        &self.from
    }
}

impl Wildcard {
    /// The import at a spot of all names of a package, which has these. It takes no memory.
    pub fn of(from: Name, names: Arc<Table<Name>>, at: Spot) -> Wildcard
        ensures { result ≡ record { from = from; names = arc_value names; at = at } }
    {
        Wildcard { from, names, at }
    }

    /// The name, as the package has it, where the package has it and the import stands before a use. It takes no memory.
    pub(crate) fn candidate(
        &self,
        file: &Name,
        chunk: u32,
        token: u32,
        name: &Name,
    ) -> Option<&Name>
        ensures { option_map (λ n. n.now) result ≡ candidate (spot file.now chunk token) name.now self.now }
    {
        if self.at.is_before(file, chunk, token) {
            self.names.get(name)
        } else {
            None
        }
    }
}
