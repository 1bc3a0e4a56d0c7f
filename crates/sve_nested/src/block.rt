ghost use Rattle.std.specs.Prelude.{◌≡◌, OnOk};
ghost use Rattle.sve_nested.specs.Blocks.{new_block, with_entered};
ghost use Rattle.sve_nested.specs.Labels.{with_labelled};

use std::alloc::Global;
use sve_bytes::{List, Name, NoMemory, Path};
use sve_table::{Named, Table};

/// The label of a generate block, and the construct of which it is one (IEEE 1800-2017, 27.6).
#[derive(Drop)]
pub struct Labelled {
    /// The label.
    pub name: Name,
    /// The number of the construct in its scope, from 1.
    pub number: u64,
}

impl Named for Labelled {
    ghost called = { λ l. l.name };

    fn name(&self) -> &Name {
        &self.name
    }
}

/// A scope that is open, of a body or of a generate block: where it stands, and the generate constructs that its text has had.
pub struct Block {
    /// Its path from the body, which for the body's own scope has no step.
    pub path: Path,
    /// The place of its scope among those of the body, from 0.
    pub place: usize,
    /// The number of its next construct, from 1 (27.6).
    pub next: u64,
    /// The names of the blocks without a label, for each of its constructs.
    pub unnamed: List<Name>,
    /// The labels of its constructs so far, selected or not.
    pub labels: Table<Labelled>,
    /// The labels of its blocks that were entered.
    pub entered: Table<Name>,
}

impl Drop for Block {
    fn drop(self) {
        let Block {
            path: _,
            place: _,
            next: _,
            unnamed: _,
            labels: _,
            entered: _,
        } = self;
    }
}

impl Block {
    /// One that begins. It takes no memory.
    pub(crate) fn new(alloc: Global, path: Path, place: usize, unnamed: List<Name>) -> Block
        ensures { result ≡ new_block path place unnamed }
    {
        Block {
            path,
            place,
            next: 1,
            unnamed,
            labels: Table::new(alloc),
            entered: Table::new(alloc),
        }
    }

    /// A label of its next construct more.
    pub(crate) fn add_label(&mut self, name: &Name) -> Result<(), NoMemory>
        ensures { OnOk result (self.new ≡ with_labelled self.old name.now) }
    {
        let number = self.next;
        let name = name.copy()?;
        self.labels.add(Labelled { name, number })?;
        Ok(())
    }

    /// A block in it was entered.
    pub(crate) fn add_entered(&mut self, name: Name) -> Result<(), NoMemory>
        ensures { OnOk result (self.new ≡ with_entered self.old name) }
    {
        if self.labels.get(&name).is_some() {
            self.entered.add(name)?;
        }
        Ok(())
    }
}
