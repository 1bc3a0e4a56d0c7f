ghost use Rattle.std.specs.Prelude.{◌≡◌, IfOk, OnErr, OnOk, is_some, not, option_map};
ghost use Rattle.sve_table.specs.Tables.{item_of};
ghost use Rattle.sve_scope.specs.Scopes.{announcing, declaration_in, declaring, declared_as, empty_scope, how_declared, imported_as, how_imported, import_of, importing, importing_all, is_declared_before, is_imported, taking, wildcard_name};

use crate::{Declared, Explicit, Wildcard};
use std::alloc::Global;
use sve_bytes::{Name, NoMemory};
use sve_table::Table;

/// A scope: the chunk of its text, what is declared in it, and what is imported into it. Each table has one item of a name, the
/// first that came.
pub struct Scope {
    /// The file of its text, and of the uses in that text. For a compilation unit it is that of the element that looks.
    pub file: Name,
    /// The number of the chunk of its text in the file, from 0.
    pub chunk: u32,
    /// What is declared in it.
    pub declared: Table<Declared>,
    /// What its text declares further on and is seen in the whole scope: functions, instances and generate blocks whose declarations
    /// a fold over the text has not come to. What is declared is taken before it.
    pub ahead: Table<Declared>,
    /// The names that are imported into it one by one.
    pub explicit: Table<Explicit>,
    /// The packages of which all names are imported into it.
    pub wild: Table<Wildcard>,
    /// The names that uses have found through the imports of all names of a package: there the import has taken effect.
    pub taken: Table<Name>,
}

impl Drop for Scope {
    fn drop(self) {
        let Scope {
            file: _,
            chunk: _,
            declared: _,
            ahead: _,
            explicit: _,
            wild: _,
            taken: _,
        } = self;
    }
}

/// How a declaration, or an import of one name, comes into a scope.
#[derive(Clone, Copy, PartialEq, Eq)]
pub enum Entered {
    /// There was nothing of its name, and it stands.
    New,
    /// A declaration whose name is declared in the scope: the first stays, and this is to be said of the second (N02). An import
    /// of a name that is imported from the same package already: nothing is to be said.
    Again,
    /// A declaration stands, but its name is imported: one by one, or with all names of a package by an import that has taken
    /// effect for it. An import does not stand where the name is declared before it, or is imported from another package. This
    /// is to be said (N07).
    Clashing,
}

impl Scope {
    /// A scope with nothing in it, for the text of this chunk. It takes no memory.
    pub fn new(alloc: Global, file: Name, chunk: u32) -> Scope
        ensures { result ≡ empty_scope file chunk }
    {
        Scope {
            file,
            chunk,
            declared: Table::new(alloc),
            ahead: Table::new(alloc),
            explicit: Table::new(alloc),
            wild: Table::new(alloc),
            taken: Table::new(alloc),
        }
    }

    /// Declares a name. Of two declarations of one name the first stays (own).
    ///
    /// # Errors
    /// For want of memory, and the scope is then as before.
    pub fn declare(&mut self, declared: Declared) -> Result<Entered, NoMemory>
        ensures scope { OnOk result (self.new ≡ declaring self.old declared) }
        ensures entered { IfOk result (λ e. e ≡ declared_as self.old declared.name) }
        ensures unchanged { OnErr result (self.new ≡ self.old) }
    {
        let imported = self.is_imported(&declared.name);
        let new = self.declared.add(declared)?;
        Ok(how_declared(new, imported))
    }

    /// Whether a name is imported so that a declaration of it clashes (IEEE 1800-2017, 26.3): one by one, or with all names of a
    /// package by an import that has taken effect for it. It takes no memory.
    pub fn is_imported(&self, name: &Name) -> bool
        ensures { result ≡ is_imported self.now name.now }
    {
        self.explicit.get(name).is_some() || self.taken.get(name).is_some()
    }

    /// Notes that the text declares a name further on, which is seen in the whole scope (IEEE 1800-2017, 23.9). Of two of one name
    /// the first stays.
    ///
    /// # Errors
    /// For want of memory, and the scope is then as before.
    pub fn announce(&mut self, declared: Declared) -> Result<(), NoMemory>
        ensures scope { OnOk result (self.new ≡ announcing self.old declared) }
        ensures unchanged { OnErr result (self.new ≡ self.old) }
    {
        self.ahead.add(declared)?;
        Ok(())
    }

    /// What is declared by a name, or what its text declares by it further on and is seen in the whole scope. It takes no memory.
    pub fn declaration(&self, name: &Name) -> Option<&Declared>
        ensures { option_map (λ d. d.now) result ≡ declaration_in self.now name.now }
    {
        match self.declared.get(name) {
            Some(declared) => Some(declared),
            None => self.ahead.get(name),
        }
    }

    /// Imports one name of a package. It does not stand where the name is declared before it, and of two imports of one name the
    /// first stays (own).
    ///
    /// # Errors
    /// For want of memory, and the scope is then as before.
    pub fn import_name(&mut self, import: Explicit) -> Result<Entered, NoMemory>
        ensures scope { OnOk result (self.new ≡ importing self.old import) }
        ensures entered { IfOk result (λ e. e ≡ imported_as self.old import) }
        ensures unchanged { OnErr result (self.new ≡ self.old) }
    {
        if self.is_declared_before(&import) {
            return Ok(Entered::Clashing);
        }
        let entered = self.as_import(&import);
        self.explicit.add(import)?;
        Ok(entered)
    }

    /// Imports all names of a package. Of two such imports of one package the first stays, which is the one that is seen by more.
    /// It answers whether the package is new.
    ///
    /// # Errors
    /// For want of memory, and the scope is then as before.
    pub fn import_all(&mut self, import: Wildcard) -> Result<bool, NoMemory>
        ensures scope { OnOk result (self.new ≡ importing_all self.old import) }
        ensures new { IfOk result (λ new. new ≡ not (is_some (item_of wildcard_name import.from self.old.wild))) }
        ensures unchanged { OnErr result (self.new ≡ self.old) }
    {
        self.wild.add(import)
    }

    /// Notes that a use found a name through an import of all names of a package in this scope.
    ///
    /// # Errors
    /// For want of memory, and the scope is then as before.
    pub fn take(&mut self, name: &Name) -> Result<(), NoMemory>
        ensures scope { OnOk result (self.new ≡ taking self.old name.now) }
        ensures unchanged { OnErr result (self.new ≡ self.old) }
    {
        if self.taken.get(name).is_none() {
            self.taken.add(name.copy()?)?;
        }
        Ok(())
    }

    /// Whether the name of an import is declared where the import sees it.
    fn is_declared_before(&self, import: &Explicit) -> bool
        ensures { result ≡ is_declared_before self.now import.now }
    {
        match self.declared.get(&import.name) {
            Some(declared) => declared
                .at
                .is_before(&import.at.file, import.at.chunk, import.at.token),
            None => false,
        }
    }

    /// How an import comes in whose name is not declared before it.
    fn as_import(&self, import: &Explicit) -> Entered
        ensures { result ≡ how_imported import.now (import_of import.now.name self.now.explicit) }
    {
        match self.explicit.get(&import.name) {
            Some(known) if known.from == import.from => Entered::Again,
            Some(_) => Entered::Clashing,
            None => Entered::New,
        }
    }
}

/// How a declaration comes in whose name is new, or is not, and is imported, or is not.
fn how_declared(new: bool, imported: bool) -> Entered
    ensures { result ≡ how_declared new imported }
{
    if !new {
        Entered::Again
    } else if imported {
        Entered::Clashing
    } else {
        Entered::New
    }
}

/// What threads may share: an `impl` is refused where they may not.
trait IsShared: Send + Sync {}

impl IsShared for Scope {}
