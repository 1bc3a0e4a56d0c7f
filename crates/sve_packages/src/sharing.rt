//! Packages that are known, to be shared.
ghost use Rattle.std.specs.Prelude.{◌≡◌, [], IfOk, option_map};
ghost use Rattle.std.specs.Arc.{arc_value};
ghost use Rattle.sve_table.specs.Tables.{item_of, with_item};
ghost use Rattle.sve_known.specs.Packages.{package_name};
ghost use Rattle.sve_packages.specs.Packages.{found_of};

use std::alloc::Global;
use std::marker::Model;
use std::sync::Arc;
use sve_bytes::{Name, NoMemory};
use sve_facts::Facts;
use sve_known::Known;
use sve_table::{Named, Table};

/// What is found of a package, to be shared. A clause sees it as a package that is known.
#[derive(Drop)]
struct Shared {
    name: Name,
    facts: Arc<Facts>,
}

impl Model for Shared {
    ghost use Rattle.std.specs.Arc.{arc_value};
    ghost use Rattle.sve_known.specs.Packages.{Known as Package, known_code};

    ghost Value = { Package };

    ghost coded = { known_code };

    ghost view = { λ s. record { name = s.name; facts = arc_value s.facts } };
}

impl Named for Shared {
    ghost called = { λ s. s.name };

    fn name(&self) -> &Name {
        &self.name
    }
}

/// Packages that are known, of which what is found can be shared. A clause sees them as their list.
#[derive(Drop)]
pub struct KnownPackages {
    known: Table<Known>,
    shared: Table<Shared>,
}

impl Model for KnownPackages {
    ghost use Rattle.std.specs.Prelude.{◌≡◌, List};
    ghost use Rattle.std.specs.Coded.{coded_list};
    ghost use Rattle.sve_known.specs.Packages.{Known as Package, known_code};

    ghost Value = { List Package };

    ghost coded = { coded_list known_code };

    ghost view = { λ p. p.known };

    ghost invariant = { λ p. p.shared ≡ p.known };
}

impl KnownPackages {
    /// No package. It takes no memory.
    pub(crate) fn new(alloc: Global) -> KnownPackages
        ensures { result ≡ [] }
    {
        KnownPackages {
            known: Table::new(alloc),
            shared: Table::new(alloc),
        }
    }

    /// A package more, of which this is found, where none has its name.
    pub(crate) fn with_package(
        self,
        alloc: Global,
        name: &Name,
        facts: Arc<Facts>,
    ) -> Result<KnownPackages, NoMemory>
        ensures { IfOk result (λ all. all ≡ with_item package_name self (record { name = name.now; facts = arc_value facts })) }
    {
        let KnownPackages {
            mut known,
            mut shared,
        } = self;
        shared.add(Shared {
            name: name.copy()?,
            facts: Arc::try_clone(&facts)?,
        })?;
        known.add(Known::of(alloc, name.copy()?, facts)?)?;
        Ok(KnownPackages { known, shared })
    }

    /// They, by their names. It takes no memory.
    pub fn known(&self) -> &Table<Known>
        ensures { result.now ≡ self.now }
    {
        &self.known
    }

    /// The same by value. It takes no memory.
    pub fn into_known(self) -> Table<Known>
        ensures { result ≡ self }
    {
        let KnownPackages { known, shared: _ } = self;
        known
    }

    /// What is found of the package of this name, where there is one. It takes no memory.
    pub fn facts(&self, name: &Name) -> Option<&Arc<Facts>>
        ensures { option_map (λ facts. arc_value facts.now) result ≡ option_map found_of (item_of package_name name.now self.now) }
    {
        match self.shared.get(name) {
            Some(shared) => Some(&shared.facts),
            None => None,
        }
    }
}
