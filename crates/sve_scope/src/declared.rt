ghost use Rattle.std.specs.Prelude.{◌≡◌, IfOk};
ghost use Rattle.sve_scope.specs.Declarations.{is_seen};
ghost use Rattle.sve_scope.specs.Spots.{spot};

use crate::{Spot, What};
use std::alloc::Global;
use sve_bytes::{Name, NoMemory};
use sve_table::Named;

/// A declaration of a name in a scope.
pub struct Declared {
    /// The name.
    pub name: Name,
    /// What it stands for.
    pub what: What,
    /// Where it is declared: the token of the name, and of a generate block its first token.
    pub at: Spot,
    /// The number of the first token of that chunk that sees it (IEEE 1800-2017, 6.5): a parameter is seen behind its value, a
    /// variable or a net from its own name on.
    pub from: u32,
}

impl Drop for Declared {
    fn drop(self) {
        let Declared {
            name: _,
            what: _,
            at: _,
            from: _,
        } = self;
    }
}

impl Declared {
    /// The same declaration, whose names share their bytes and whose types are shared.
    pub fn copy(&self, alloc: Global) -> Result<Declared, NoMemory>
        ensures { IfOk result (λ d. d ≡ self.now) }
    {
        Ok(Declared {
            name: self.name.copy()?,
            what: self.what.copy(alloc)?,
            at: self.at.copy()?,
            from: self.from,
        })
    }

    /// Whether a use at a token of a chunk of a file sees it (IEEE 1800-2017, 6.5 and 23.9). Functions, instances and generate
    /// blocks are seen in their whole scope, which in a compilation unit begins with their chunk. It takes no memory.
    pub fn is_seen(&self, file: &Name, chunk: u32, token: u32) -> bool
        ensures { result ≡ is_seen self.now (spot file.now chunk token) }
    {
        if self.what.is_whole() {
            return self.at.begins_by(file, chunk);
        }
        self.at
            .chunk_order(file, chunk)
            .then(self.from.cmp(&token))
            .is_le()
    }
}

impl Named for Declared {
    ghost called = { λ d. d.name };

    fn name(&self) -> &Name {
        &self.name
    }
}
