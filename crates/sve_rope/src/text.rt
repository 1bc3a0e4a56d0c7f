ghost use Rattle.std.specs.Prelude.{◌≡◌, ◌<◌, ◌^◌, length, take, drop, IfOk};
ghost use Rattle.std.specs.Arc.{arc_value};
ghost use Rattle.sve_rope.specs.Splice.{spliced};

use crate::splicing::splice;
use crate::tree::{Tree, leaf};
use std::alloc::Global;
use std::marker::Model;
use std::sync::Arc;
use sve_bytes::{List, NoMemory};

/// A text that contracts see as its bytes. Texts share in memory what one was made of another.
pub struct Text {
    tree: Tree,
}

impl Drop for Text {
    fn drop(self) {
        let Text { tree: _ } = self;
    }
}

impl Model for Text {
    ghost use Rattle.std.specs.Prelude.{ℕ, List};
    ghost use Rattle.sve_rope.specs.Tree.{bytes_in, IsMeasured};

    ghost Value = { List ℕ };

    ghost view = { λ t. bytes_in t.tree };

    ghost invariant = { λ t. IsMeasured t.tree };
}

impl Text {
    /// The text of these bytes, which are moved and not copied.
    ///
    /// # Errors
    /// Only for want of memory.
    pub fn of(alloc: Global, bytes: List<u8>) -> Result<Text, NoMemory>
        ensures { IfOk result (λ t. t ≡ bytes) }
    {
        Ok(Text {
            tree: leaf(alloc, bytes)?,
        })
    }

    /// The length of the text, in bytes. It takes no memory.
    pub fn len(&self) -> usize
        ensures len { result ≡ length self.now }
        ensures fits { result < 2 ^ 63 }
    {
        self.tree.len()
    }

    /// Some of the text from this offset on, at least one byte of it, on condition that the offset is below
    /// the length. It takes no memory, and few steps: their number grows with the logarithm of the number
    /// of the runs that the text lies in.
    pub fn run(&self, at: usize) -> &[u8]
        requires { at < length self.now }
        ensures some { 0 < length result.now }
        ensures run { result.now ≡ take (length result.now) (drop at self.now) }
    {
        self.tree.run(at)
    }

    /// The text in which `new` takes the place of the `cut` bytes that begin at offset `at`, or of those
    /// of them that there are. It takes memory for the way down to these bytes, and shares the others.
    ///
    /// # Errors
    /// Only for want of memory.
    pub fn splice(&self, alloc: Global, at: usize, cut: usize, new: &Text) -> Result<Text, NoMemory>
        ensures { IfOk result (λ t. t ≡ spliced at cut new.now self.now) }
    {
        let len = self.tree.len();
        let at = at.min(len);
        let cut = cut.min(len - at);
        Ok(Text {
            tree: splice(alloc, &self.tree, at, cut, &new.tree)?,
        })
    }

    /// The same text, shared and not copied.
    ///
    /// # Errors
    /// Only for want of memory.
    pub fn share(&self) -> Result<Text, NoMemory>
        ensures { IfOk result (λ t. t ≡ self.now) }
    {
        Ok(Text {
            tree: self.tree.share()?,
        })
    }

    /// The bytes in one piece: those that the text was made of, shared, where it is still all of them,
    /// else a copy.
    ///
    /// # Errors
    /// Only for want of memory.
    pub fn whole(&self, alloc: Global) -> Result<Arc<List<u8>>, NoMemory>
        ensures { IfOk result (λ whole. arc_value whole ≡ self.now) }
    {
        if let Tree::Leaf(run) = &self.tree
            && let Some(held) = run.whole()?
        {
            return Ok(held);
        }
        let mut bytes = Vec::new(alloc);
        self.tree.append_to(&mut bytes)?;
        Ok(Arc::new(alloc, List::of(bytes))?)
    }
}
