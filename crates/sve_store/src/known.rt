//! Values that are known by now.
ghost use Rattle.std.specs.Prelude.{◌≡◌, ◌++◌, [], ◌∷◌, OnOk, OnErr, option_map};
ghost use Rattle.std.specs.Arc.{arc_value};
ghost use Rattle.sve_store.specs.Made.{value_in};
ghost use Rattle.sve_store.specs.Noted.{entered};

use std::alloc::Global;
use std::marker::Model;
use std::sync::Arc;
use sve_bytes::NoMemory;
use sve_memo::{Memo, Memos};

/// The values of some keys, in the order in which they were told: of a key that was told twice the first value counts. A
/// value is looked up or added in as many steps as their number has bits, but for a factor.
#[derive(Drop)]
pub struct Known<Q: Ord, V> {
    table: Memos<Q, V>,
    /// All that was told, in its order, of which contracts speak. It shares what the table holds.
    told: Vec<Memo<Q, V>>,
}

impl<Q: Ord, V> Model for Known<Q, V> {
    ghost use Rattle.std.specs.Prelude.{List};
    ghost use Rattle.sve_store.specs.Noted.{told_values, IsTableOf};

    ghost Value = { List (Q × V) };

    ghost view = { λ known. told_values known.told.items };

    ghost invariant = { λ known. IsTableOf Q.cmp known.told.items known.table };
}

impl<Q: Ord + Drop, V: Drop> Known<Q, V> {
    /// No value. It takes no memory.
    pub fn new(alloc: Global) -> Known<Q, V>
        ensures { result ≡ [] }
    {
        Known {
            table: Memos::new(),
            told: Vec::new(alloc),
        }
    }

    /// The value of a key, if it is known. It takes no memory.
    pub fn find(&self, key: &Q) -> Option<&Arc<V>>
        ensures { option_map (λ value. arc_value value.now) result ≡ value_in Q.cmp self.now key.now }
    {
        match self.table.find(key) {
            Some(memo) => Some(memo.value()),
            None => None,
        }
    }

    /// Adds the value of a key behind those that are known.
    ///
    /// # Errors
    /// Only for want of memory; what is known is then as before.
    pub fn put(&mut self, alloc: Global, key: Q, value: Arc<V>) -> Result<(), NoMemory>
        ensures put { OnOk result (self.new ≡ self.old ++ (key, arc_value value) ∷ []) }
        ensures unchanged { OnErr result (self.new ≡ self.old) }
    {
        self.told.reserve(1)?;
        // What a value rests on is nobody's question here.
        let memo = Memo::new(alloc, key, value, 0, Vec::new(alloc), 0)?;
        enter(alloc, &mut self.table, &memo)?;
        self.told.push_reserved(memo);
        Ok(())
    }
}

/// Puts a memo into a table, unless this has one of its key.
fn enter<Q: Ord + Drop, V: Drop>(
    alloc: Global,
    table: &mut Memos<Q, V>,
    memo: &Memo<Q, V>,
) -> Result<(), NoMemory>
    ensures entered { OnOk result (table.new ≡ entered Q.cmp memo.now table.old) }
    ensures unchanged { OnErr result (table.new ≡ table.old) }
{
    if table.find(memo.key()).is_some() {
        return Ok(());
    }
    table.put(alloc, memo.share()?)
}
