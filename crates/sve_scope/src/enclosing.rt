ghost use Rattle.std.specs.Prelude.{◌≡◌, ◌<◌, ◌∷◌, [], Some, OnErr, OnOk, drop, length, slice_get};
ghost use Rattle.sve_scope.specs.Scopes.{taking_at};

use crate::Scope;
use std::alloc::{AllocError, Global};
use std::marker::Model;
use sve_bytes::{Name, NoMemory};

/// What stands around one thing, each inside of the next, as the scopes around one do while a text is read that has scopes inside of
/// scopes: a function in a package, a block of statements, a generate block. Clauses see the list from the innermost outward. To enter
/// or to leave one takes one step.
pub struct Enclosing<T> {
    /// The outermost stands first.
    items: Vec<T>,
}

impl<T: Drop> Drop for Enclosing<T> {
    fn drop(self) {
        let Enclosing { items: _ } = self;
    }
}

impl<T> Model for Enclosing<T> {
    ghost use Rattle.std.specs.Prelude.{List, reverse};

    ghost Value = { List T };

    ghost view = { λ e. reverse e.items.items };
}

impl<T> Enclosing<T> {
    /// Nothing is around. It takes no memory.
    pub fn new(alloc: Global) -> Enclosing<T>
        ensures { result ≡ [] }
    {
        Enclosing {
            items: Vec::new(alloc),
        }
    }

    /// Puts one inside of all others.
    ///
    /// # Errors
    /// For want of memory, and they are then as before.
    pub fn enter(&mut self, item: T) -> Result<(), NoMemory>
    where
        T: Drop,
        ensures items { OnOk result (self.new ≡ item ∷ self.old) }
        ensures unchanged { OnErr result (self.new ≡ self.old) }
    {
        match self.items.push(item) {
            Ok(()) => Ok(()),
            Err(_) => Err(AllocError),
        }
    }

    /// Takes the innermost away and gives it, where there is one. It takes no memory.
    #[tactic(auto, using(crate::proofs::Enclosed::first_of, crate::proofs::Enclosed::others_of))]
    pub fn leave(&mut self) -> Option<T>
        ensures innermost { result ≡ slice_get self.old 0 }
        ensures rest { self.new ≡ drop 1 self.old }
    {
        self.items.pop()
    }

    /// The one at a place, counted from 0 at the innermost. It takes no memory.
    pub fn at(&self, place: usize) -> &T
        requires { place < length self.now }
        ensures { slice_get self.now place ≡ Some result.now }
    {
        let behind = self.items.len() - 1 - place;
        &self.items[behind]
    }

    /// How many there are. It takes no memory.
    pub fn len(&self) -> usize
        ensures { result ≡ length self.now }
    {
        self.items.len()
    }
}

impl Enclosing<Scope> {
    /// Notes that a use found a name through an import of all names of a package in the scope at a place, counted from 0 at the
    /// innermost. Behind the last place it changes nothing.
    ///
    /// # Errors
    /// For want of memory, and the scopes are then as before.
    pub fn take(&mut self, place: usize, name: &Name) -> Result<(), NoMemory>
        ensures scopes { OnOk result (self.new ≡ taking_at self.old place name.now) }
        ensures unchanged { OnErr result (self.new ≡ self.old) }
    {
        if place < self.items.len() {
            let behind = self.items.len() - 1 - place;
            self.items[behind].take(name)?;
        }
        Ok(())
    }
}
