ghost use Rattle.std.specs.Prelude.{◌≡◌, [], IfOk, OnOk, OnErr, option_map};
ghost use Rattle.sve_memo.specs.Memos.{memo_in, put_memo, IsInOrder};

use crate::memo::Memo;
use crate::tree::Tree;
use std::alloc::Global;
use std::marker::Model;
use sve_bytes::NoMemory;

/// Memos in the order of their keys, at most one for each key. Copies share what they have in common, and a memo is
/// found or put in as many steps as the number of memos has bits, but for a factor.
pub struct Memos<Q: Ord, V> {
    tree: Tree<Q, V>,
}

impl<Q: Ord + Drop, V: Drop> Drop for Memos<Q, V> {
    fn drop(self) {
        let Memos { tree: _ } = self;
    }
}

impl<Q: Ord, V> Model for Memos<Q, V> {
    ghost use Rattle.sve_memo.specs.Memos.{MemoValue, IsInOrder};
    ghost use Rattle.std.specs.Prelude.{List};

    ghost Value = { List (MemoValue Q V) };

    ghost use Rattle.sve_memo.specs.Trees.{memos_of};

    ghost view = { λ m. memos_of m.tree };

    ghost invariant = { λ m. IsInOrder Q.cmp (memos_of m.tree) };
}

impl<Q: Ord + Drop, V: Drop> Memos<Q, V> {
    /// No memo. It takes no memory.
    pub fn new() -> Memos<Q, V>
        ensures { result ≡ [] }
    {
        Memos { tree: Tree::Leaf }
    }

    /// The same memos, which are shared.
    ///
    /// # Errors
    /// Only for want of memory.
    pub fn share(&self) -> Result<Memos<Q, V>, NoMemory>
        ensures { IfOk result (λ memos. memos ≡ self.now) }
    {
        Ok(Memos {
            tree: self.tree.share()?,
        })
    }

    /// The memo of a key, if there is one. It takes no memory.
    pub fn find(&self, key: &Q) -> Option<&Memo<Q, V>>
        ensures { option_map (λ memo. memo.now) result ≡ memo_in Q.cmp self.now key.now }
    {
        self.tree.find(key)
    }

    /// What holds of all memos: they stand in the order of their keys, at most one for each. It does nothing.
    pub fn stay_in_order(&self)
        ensures { IsInOrder Q.cmp self.now }
    {
        // What the type keeps is known where one of its fields is looked at.
        let _ = &self.tree;
    }

    /// All memos, in the order of their keys, at most one for each. They share what was found.
    ///
    /// # Errors
    /// Only for want of memory.
    pub fn list(&self, alloc: Global) -> Result<Vec<Memo<Q, V>>, NoMemory>
        ensures order { IsInOrder Q.cmp self.now }
        ensures all { IfOk result (λ memos. memos.items ≡ self.now) }
    {
        let mut memos = Vec::new(alloc);
        self.tree.list(&mut memos)?;
        Ok(memos)
    }

    /// Puts a memo in, in the place of the one of its key, if there is one.
    ///
    /// # Errors
    /// Only for want of memory; the memos are then as before.
    pub fn put(&mut self, alloc: Global, memo: Memo<Q, V>) -> Result<(), NoMemory>
        ensures put { OnOk result (self.new ≡ put_memo Q.cmp memo self.old) }
        ensures unchanged { OnErr result (self.new ≡ self.old) }
    {
        let tree = self.tree.put(alloc, memo)?;
        self.tree = tree;
        Ok(())
    }
}
