ghost use Rattle.std.specs.Prelude.{◌≡◌, [], Some, None, option_copied, bytes_eq, OnOk, OnErr};
ghost use Rattle.std.specs.BTreeMap.{insert_entry};
ghost use Rattle.std.specs.Cmp.Lexicographic.{slice_cmp};
ghost use Rattle.std.specs.Map.{remove_entry};
ghost use Rattle.std.specs.Ordering.{nat_cmp};
ghost use Rattle.sve_macro.specs.Macros.{macro_of, Sets};

use crate::definition::Macro;
use std::alloc::Global;
use std::collections::BTreeMap;
use std::marker::Model;
use sve_bytes::{Name, NoMemory};

/// The macros that are defined, each name once, in byte order of the names.
#[derive(Drop)]
pub struct Table {
    map: BTreeMap<Name, Macro>,
}

impl Model for Table {
    ghost use Rattle.sve_macro.specs.Macros.{Entries};

    ghost Value = { Entries };

    ghost view = { λ t. t.map.entries };
}

impl Table {
    /// A table without macros. It takes no memory.
    pub fn new(alloc: Global) -> Table
        ensures { result ≡ [] }
    {
        Table {
            map: BTreeMap::new(alloc),
        }
    }

    /// The macro of a name, or `None` where none is defined. It takes no memory.
    pub fn find(&self, name: &Name) -> Option<&Macro>
        ensures { option_copied result ≡ macro_of self.now name.now }
    {
        self.map.get(name)
    }

    /// Gives a name this macro in place of the one that it has, if any (IEEE 1800-2017, 22.5.1).
    ///
    /// # Errors
    /// Only for want of memory. The table is then as before.
    pub fn define(&mut self, name: Name, definition: Macro) -> Result<(), NoMemory>
        ensures entries { OnOk result (self.new ≡ insert_entry (slice_cmp nat_cmp) self.old name definition) }
        ensures defined { OnOk result (Sets self.old self.new name (Some definition)) }
        ensures err { OnErr result (self.new ≡ self.old) }
    {
        self.map.insert(name, definition)?;
        Ok(())
    }

    /// Takes a name's macro away, if it has one (IEEE 1800-2017, 22.5.2). It takes no memory.
    pub fn undefine(&mut self, name: &Name)
        ensures entries { self.new ≡ remove_entry (bytes_eq name.now) self.old }
        ensures undefined { Sets self.old self.new name.now None }
    {
        let _ = self.map.remove(name);
    }

    /// Takes all macros away (IEEE 1800-2017, 22.5.3). It takes no memory.
    pub fn clear(&mut self)
        ensures { self.new ≡ [] }
    {
        self.map.clear();
    }
}
