ghost use Rattle.std.specs.Prelude.{◌≡◌, ◌∷◌, option_map};
ghost use Rattle.sve_known.specs.Naming.{name_at};
ghost use Rattle.sve_around.specs.Around.{face_named};

use crate::gathering::gather;
use crate::references::reference_of;
use crate::things::{Instances, face_in, thing_found};
use std::alloc::Global;
use std::mem;
use sve_bytes::{List, Name, NoMemory};
use sve_connect::{Around, Net, Thing};
use sve_known::{Known, name_at};
use sve_scope::{Enclosing, Scope, lookup};
use sve_table::Table;
use sve_tree::{Expr, Word};

/// What is known around an instance. Names stand for what they stand for at the place of their use, and the name of a port for what
/// it stands for at the token of the instance.
#[derive(Drop)]
pub struct Surroundings<'a, I> {
    /// The allocator.
    pub alloc: Global,
    /// The file of the instance.
    pub file: &'a Name,
    /// The chunk of the instance in its file, from 0.
    pub chunk: u32,
    /// The words of the chunk.
    pub words: &'a [Word],
    /// The innermost scope that sees the instance, which stands in its text.
    pub scope: &'a Scope,
    /// The scopes around that one.
    pub around: &'a Enclosing<Scope>,
    /// The packages that are known.
    pub packages: &'a Table<Known>,
    /// The token of the instance in the chunk.
    pub at: u32,
    /// Which instances are those of interfaces.
    pub instances: &'a I,
}

/// The interface that the name at a token stands for, where it is used.
fn face_at<'a, I: Instances>(seen: &Surroundings<'a, I>, token: u32) -> Option<&'a Name>
    ensures { option_map (λ n. n.now) result ≡ face_named seen.now.words.now (seen.now.scope.now ∷ seen.now.around.now) seen.now.packages.now (I.interfaces seen.now.instances.now) (name_at seen.now.words.now token) token }
{
    let name = name_at(seen.words, token)?;
    let found = lookup(seen.scope, seen.around, name, token);
    face_in(thing_found(seen.packages, seen.instances, token, found))
}

impl<I: Instances> Around for Surroundings<'_, I> {
    ghost use Rattle.std.specs.Prelude.{◌∷◌};
    ghost use Rattle.sve_around.specs.Around.{seen_around};

    ghost seen = { λ s. seen_around s.file.now s.chunk s.words.now (s.scope.now ∷ s.around.now) s.packages.now s.at (I.interfaces s.instances.now) };

    fn file(&self) -> &Name {
        self.file
    }

    fn chunk(&self) -> u32 {
        self.chunk
    }

    fn name(&self, token: u32) -> Option<&Name> {
        name_at(self.words, token)
    }

    fn thing(&self, name: &Name) -> Thing<'_> {
        thing_found(
            self.packages,
            self.instances,
            self.at,
            lookup(self.scope, self.around, name, self.at),
        )
    }

    fn interface(&self, expr: &Expr) -> Option<&Name> {
        match reference_of(expr) {
            Some(token) => face_at(self, token),
            None => None,
        }
    }

    fn add_nets(&self, expr: &Expr, nets: &mut Vec<Net>) -> Result<(), NoMemory> {
        let before = List::of(mem::replace(nets, Vec::new(self.alloc)));
        *nets = gather(
            self.alloc,
            self.words,
            self.scope,
            self.around,
            before,
            expr,
        )?
        .into_vec();
        Ok(())
    }
}
