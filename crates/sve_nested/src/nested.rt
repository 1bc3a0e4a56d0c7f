ghost use Rattle.std.specs.Prelude.{◌≡◌, IfOk, length};
ghost use Rattle.sve_nested.specs.Blocks.{begun, closed, left_in};

use crate::blocks::Blocks;
use crate::entering::announcing_all;
use crate::leaving::{Taken, take_scope};
use std::alloc::Global;
use sve_ahead::Ahead;
use sve_bytes::{List, NoMemory};
use sve_contents::Contents;
use sve_diag::Note;
use sve_facts::BodyScope;

/// What is found of a body as far as its text is gone over, scope by scope. Tokens are named by their numbers in the chunk of the
/// text, and the words that calls take are those of that chunk.
#[derive(Drop)]
pub struct Nested {
    /// The innermost scope with those around it, and what is to be said.
    pub contents: Contents,
    /// Which scopes of the body are open, and those that have ended.
    pub blocks: Blocks,
}

/// The scopes of a body whose text was gone over, and what is to be said of it.
#[derive(Drop)]
pub struct Scopes {
    /// The body's own scope, and then those of its generate blocks in the order of the text.
    pub scopes: List<BodyScope>,
    /// What is to be said, in the order of the text.
    pub notes: List<Note>,
}

impl Nested {
    /// A body begins, in a scope in which nothing is declared yet, and what its text declares ahead is announced (IEEE 1800-2017, 23.9).
    ///
    /// # Errors
    /// For want of memory alone.
    pub fn begun(alloc: Global, contents: Contents, ahead: Ahead) -> Result<Nested, NoMemory>
        ensures { IfOk result (λ n. n ≡ begun contents ahead) }
    {
        let inner = announcing_all(contents, ahead.announced.items())?;
        let blocks = Blocks::of_body(alloc, &inner, ahead.into_unnamed())?;
        Ok(Nested {
            contents: inner,
            blocks,
        })
    }

    /// The number of the next generate construct of the innermost scope, of which the first has number 1 (27.6). It takes no memory.
    pub fn next_number(&self) -> u64
        ensures { result ≡ self.now.blocks.inner.next }
    {
        self.blocks.inner.next
    }

    /// How many generate blocks are open. It takes no memory.
    pub fn depth(&self) -> usize
        ensures { result ≡ length self.now.blocks.around }
    {
        self.blocks.around.len()
    }

    /// The innermost generate block ends: its scope takes its place among those of the body, where a block that was not entered is no
    /// name of it, and the text goes on in the scope around it (IEEE 1800-2017, 27.5). Where no block is open nothing changes.
    ///
    /// # Errors
    /// For want of memory alone.
    pub fn left(self, alloc: Global) -> Result<Nested, NoMemory>
        ensures { IfOk result (λ n. n ≡ left_in self) }
    {
        let Nested { contents, blocks } = self;
        if blocks.around.len() == 0 {
            return Ok(Nested { contents, blocks });
        }
        let Taken { contents, scope } = take_scope(alloc, contents)?;
        let blocks = blocks.left(alloc, scope)?;
        Ok(Nested {
            contents: contents.left(),
            blocks,
        })
    }

    /// The scopes of the body, whose own scope ends, and what is to be said of it.
    ///
    /// # Errors
    /// For want of memory alone.
    pub fn finished(self, alloc: Global) -> Result<Scopes, NoMemory>
        ensures scopes { IfOk result (λ f. f.scopes ≡ closed self.blocks.inner self.contents.scope self.blocks.scopes) }
        ensures notes { IfOk result (λ f. f.notes ≡ self.contents.notes) }
    {
        let Nested { contents, blocks } = self;
        let finished = contents.finished();
        let scopes = blocks.ended(alloc, finished.scope)?;
        let notes = finished.notes;
        Ok(Scopes { scopes, notes })
    }
}
