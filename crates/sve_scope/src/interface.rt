//! The names of interfaces and of their modports.
ghost use Rattle.std.specs.Prelude.{◌≡◌, IfOk};
ghost use Rattle.sve_scope.specs.Interfaces.{gives, gives_through, has_modport, is_among};

use std::alloc::Global;
use std::marker::Model;
use std::sync::Arc;
use sve_bytes::{Name, NoMemory};
use sve_table::{Named, Table};

/// A modport of an interface, and the names that it gives (IEEE 1800-2017, 25.5).
#[derive(Drop)]
pub struct ModportNames {
    /// The name of the modport.
    pub name: Name,
    /// The names that it gives.
    pub members: Table<Name>,
}

impl Named for ModportNames {
    ghost called = { λ m. m.name };

    fn name(&self) -> &Name {
        &self.name
    }
}

/// The names that an interface gives to those whose ports are connected to it (IEEE 1800-2017, 25.3 and 25.5).
#[derive(Drop)]
pub struct InterfaceNames {
    /// All names that its outermost scope declares.
    pub all: Table<Name>,
    /// Its modports.
    pub modports: Table<ModportNames>,
}

/// Whether a name is among others.
fn is_among(name: &Name, names: &Table<Name>) -> bool
    ensures { result ≡ is_among name.now names.now }
{
    names.get(name).is_some()
}

impl InterfaceNames {
    /// Whether it has a modport of this name. It takes no memory.
    pub fn has_modport(&self, name: &Name) -> bool
        ensures { result ≡ has_modport self.now name.now }
    {
        self.modports.get(name).is_some()
    }

    /// Whether a modport of it gives a member. One that is not there gives none.
    fn gives_through(&self, modport: &Name, member: &Name) -> bool
        ensures { result ≡ gives_through self.now modport.now member.now }
    {
        match self.modports.get(modport) {
            Some(modport) => is_among(member, &modport.members),
            None => false,
        }
    }

    /// Whether it gives a member through a modport or, where there is none, by itself. It takes no memory.
    pub fn gives(&self, modport: &Option<Name>, member: &Name) -> bool
        ensures { result ≡ gives self.now modport.now member.now }
    {
        match modport {
            Some(modport) => self.gives_through(modport, member),
            None => is_among(member, &self.all),
        }
    }
}

/// The names of an interface, which all ports share that are connected to an instance of it. A clause sees the names themselves.
#[derive(Drop)]
pub struct SharedInterface {
    names: Arc<InterfaceNames>,
}

impl Model for SharedInterface {
    ghost use Rattle.std.specs.Arc.{arc_value};
    ghost use Rattle.sve_scope.specs.declared.interface.InterfaceNames.{InterfaceNames};

    ghost Value = { InterfaceNames };

    ghost view = { λ s. arc_value s.names };
}

impl SharedInterface {
    /// The names, to be shared.
    pub fn of(alloc: Global, names: InterfaceNames) -> Result<SharedInterface, NoMemory>
        ensures { IfOk result (λ s. s ≡ names) }
    {
        Ok(SharedInterface {
            names: Arc::new(alloc, names)?,
        })
    }

    /// The names. It takes no memory.
    pub fn names(&self) -> &InterfaceNames
        ensures { result.now ≡ self.now }
    {
        &self.names
    }

    /// The same names, which are shared.
    pub fn copy(&self) -> Result<SharedInterface, NoMemory>
        ensures { IfOk result (λ s. s ≡ self.now) }
    {
        Ok(SharedInterface {
            names: Arc::try_clone(&self.names)?,
        })
    }
}
