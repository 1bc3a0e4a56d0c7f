ghost use Rattle.std.specs.Prelude.{◌≡◌, ◌<◌, [], Some, IfOk, OnErr, OnOk, is_some, length, not, option_map, slice_get};
ghost use Rattle.sve_table.specs.Tables.{FirstOfItsName, item_of, with_item};

use crate::Named;
use indexmap::IndexMap;
use std::alloc::Global;
use std::marker::Model;
use sve_bytes::{Name, NoMemory};

/// Named things in the order in which they were added, of which no two have one name. Contracts see them as their list.
#[derive(Drop)]
pub struct Table<T: Named> {
    items: IndexMap<Name, T>,
}

impl<T: Named> Model for Table<T> {
    ghost use Rattle.std.specs.Prelude.{List};
    ghost use Rattle.std.specs.Map.{values_of};
    ghost use Rattle.sve_table.specs.Tables.{StandUnderTheirNames};

    ghost Value = { List T };

    ghost view = { λ t. values_of t.items.entries };

    ghost invariant = { λ t. StandUnderTheirNames T.called t.items.entries };
}

impl<T: Named> Table<T> {
    /// A table of nothing. It takes no memory.
    pub fn new(alloc: Global) -> Table<T>
        ensures { result ≡ [] }
    {
        Table {
            items: IndexMap::new(alloc),
        }
    }

    /// Puts an item behind the others, and answers whether it did so: where an item of that name is there, it stays and the new
    /// one is dropped.
    ///
    /// # Errors
    /// For want of memory, and the table is then as before.
    pub fn add(&mut self, item: T) -> Result<bool, NoMemory>
    where
        T: Drop,
        ensures table { OnOk result (self.new ≡ with_item T.called self.old item) }
        ensures is_new { IfOk result (λ new. new ≡ not (is_some (item_of T.called (T.called item) self.old))) }
        ensures unchanged { OnErr result (self.new ≡ self.old) }
    {
        if self.items.contains_key(item.name()) {
            return Ok(false);
        }
        self.items.insert(item.name().copy()?, item)?;
        Ok(true)
    }

    /// The item of a name, where there is one. It takes no memory.
    pub fn get(&self, name: &Name) -> Option<&T>
        ensures { option_map (λ item. item.now) result ≡ item_of T.called name.now self.now }
    {
        self.items.get(name)
    }

    /// The item at a place, counted from 0 in the order in which they were added. It takes no memory.
    pub fn at(&self, place: usize) -> &T
        requires { place < length self.now }
        ensures { slice_get self.now place ≡ Some result.now }
    {
        &self.items[place]
    }

    /// How many items there are. It takes no memory.
    pub fn len(&self) -> usize
        ensures { result ≡ length self.now }
    {
        self.items.len()
    }
}

/// Items that are added one after another are found as in their list: of those that have one name, the first.
pub fn first_of_its_name<T: Named>()
    ensures { FirstOfItsName T.called }
{}
