ghost use Rattle.std.specs.Prelude.{◌≡◌, IfOk};
ghost use Rattle.sve_nested.specs.Blocks.{begun_scope, blocks_within, closed, left_to, own_blocks, own_path};

use crate::block::Block;
use crate::leaving::closed;
use std::alloc::Global;
use sve_bytes::{List, Name, NoMemory, Path};
use sve_contents::Contents;
use sve_facts::BodyScope;
use sve_scope::{Enclosing, Scope};

/// The scopes of a body, as far as its text is gone over: where those stand that are open, and those that have ended.
pub struct Blocks {
    /// The innermost one.
    pub inner: Block,
    /// Those around it.
    pub around: Enclosing<Block>,
    /// The scopes of the body: its own, and those of generate blocks in the order in which they begin. One that is open has nothing in
    /// it here.
    pub scopes: List<BodyScope>,
}

impl Drop for Blocks {
    fn drop(self) {
        let Blocks {
            inner: _,
            around: _,
            scopes: _,
        } = self;
    }
}

/// The scope of a path that begins in front of a scope, with nothing in it.
pub(crate) fn begun_scope(
    alloc: Global,
    path: Path,
    contents: &Contents,
) -> Result<BodyScope, NoMemory>
    ensures { IfOk result (λ s. s ≡ begun_scope path contents.now) }
{
    let file = contents.scope.file.copy()?;
    let scope = Scope::new(alloc, file, contents.scope.chunk);
    Ok(BodyScope { path, scope })
}

/// The path of a body from itself.
fn own_path(alloc: Global) -> Path
    ensures { result ≡ own_path }
{
    Path {
        steps: List::of(Vec::new(alloc)),
    }
}

impl Blocks {
    /// Those of a body that begins: its own scope.
    pub(crate) fn of_body(
        alloc: Global,
        contents: &Contents,
        unnamed: List<Name>,
    ) -> Result<Blocks, NoMemory>
        ensures { IfOk result (λ b. b ≡ own_blocks contents.now unnamed) }
    {
        let mut scopes = Vec::new(alloc);
        scopes.push(begun_scope(alloc, own_path(alloc), contents)?)?;
        Ok(Blocks {
            inner: Block::new(alloc, own_path(alloc), 0, unnamed),
            around: Enclosing::new(alloc),
            scopes: List::of(scopes),
        })
    }

    /// A block with a name begins.
    pub(crate) fn within(
        self,
        alloc: Global,
        path: Path,
        name: Name,
        unnamed: List<Name>,
        scope: BodyScope,
    ) -> Result<Blocks, NoMemory>
        ensures { IfOk result (λ b. b ≡ blocks_within self path name unnamed scope) }
    {
        let Blocks {
            inner,
            around,
            scopes,
        } = self;
        let mut outer = inner;
        outer.add_entered(name)?;
        let mut around = around;
        around.enter(outer)?;
        let mut scopes = scopes.into_vec();
        let inner = Block::new(alloc, path, scopes.len(), unnamed);
        scopes.push(scope)?;
        Ok(Blocks {
            inner,
            around,
            scopes: List::of(scopes),
        })
    }

    /// The innermost one ends with a scope, where it is not that of the body.
    pub(crate) fn left(self, alloc: Global, scope: Scope) -> Result<Blocks, NoMemory>
        ensures { IfOk result (λ b. b ≡ left_to self scope self.around) }
    {
        let Blocks {
            inner,
            around,
            scopes,
        } = self;
        let mut around = around;
        match around.leave() {
            Some(outer) => Ok(Blocks {
                inner: outer,
                around,
                scopes: closed(alloc, inner, scope, scopes)?,
            }),
            None => Ok(Blocks {
                inner,
                around,
                scopes,
            }),
        }
    }

    /// The scopes of the body, of which the innermost ends with this scope.
    pub(crate) fn ended(self, alloc: Global, scope: Scope) -> Result<List<BodyScope>, NoMemory>
        ensures { IfOk result (λ l. l ≡ closed self.inner scope self.scopes) }
    {
        let Blocks {
            inner,
            around: _,
            scopes,
        } = self;
        closed(alloc, inner, scope, scopes)
    }
}
