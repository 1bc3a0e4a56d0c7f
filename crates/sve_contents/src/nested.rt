//! Scopes that begin and end in the text of another.
ghost use Rattle.std.specs.Prelude.{◌≡◌, IfOk};
ghost use Rattle.sve_contents.specs.Nested.{entered, left};

use crate::Contents;
use std::alloc::Global;
use std::mem;
use sve_bytes::NoMemory;
use sve_scope::Scope;

impl Contents {
    /// A scope of the same chunk begins inside of this one (IEEE 1800-2017, 23.9), with nothing in it.
    ///
    /// # Errors
    /// For want of memory alone.
    pub fn entered(self, alloc: Global) -> Result<Contents, NoMemory>
        ensures { IfOk result (λ c. c ≡ entered self) }
    {
        let mut contents = self;
        let inner = Scope::new(alloc, contents.scope.file.copy()?, contents.scope.chunk);
        let outer = mem::replace(&mut contents.scope, inner);
        contents.around.enter(outer)?;
        Ok(contents)
    }

    /// The scope ends, and the text goes on in the one around it. Where none is around it stays as it is. It takes no memory.
    #[tactic(auto, using(crate::proofs::Leaving::left_for, crate::proofs::Leaving::left_alone))]
    pub fn left(self) -> Contents
        ensures { result ≡ left self }
    {
        let mut contents = self;
        match contents.around.leave() {
            Some(outer) => {
                contents.scope = outer;
                contents
            }
            None => contents,
        }
    }
}
