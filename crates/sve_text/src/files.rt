ghost use Rattle.std.specs.Prelude.{◌≡◌, ◌<◌, Some, IfOk, IfSome, option_map, slice_get};
ghost use Rattle.std.specs.Arc.{arc_value};
ghost use Rattle.sve_text.specs.Rows.{text_of, stamp_of, names_in, count, IsInLimit};
ghost use Rattle.sve_text.specs.Files.{opening_files, HaveDistinctNames, TextsFit};

use crate::piece::Piece;
use crate::row::StoredRow;
use crate::tree::Tree;
use std::alloc::Global;
use std::marker::Model;
use std::sync::Arc;
use sve_bytes::{List, Name, NoMemory};
use sve_rope::Text;

/// The files of one revision: for each name a text of at most 1,048,576 bytes or none, and the
/// revision whose commit last touched it. Revisions share what they have in common.
pub struct Files {
    pub(crate) tree: Tree,
    pub(crate) names_stamp: u64,
}

impl Drop for Files {
    fn drop(self) {
        let Files {
            tree: _,
            names_stamp: _,
        } = self;
    }
}

impl Model for Files {
    ghost use Rattle.sve_text.specs.Files.{FilesValue};
    ghost use Rattle.sve_text.specs.Rows.{IsInOrder, RowsFit};
    ghost use Rattle.sve_text.specs.Tree.{rows_in, IsCounted};

    ghost Value = { FilesValue };

    ghost view = { λ f. record { rows = rows_in f.tree; names_stamp = f.names_stamp } };

    ghost invariant = { λ f. IsInOrder (rows_in f.tree) × RowsFit (rows_in f.tree) × IsCounted f.tree };
}

impl Files {
    /// The opening files, each with stamp 0, on condition that no two have one name and no text is
    /// above 1,048,576 bytes.
    ///
    /// # Errors
    /// Only for want of memory.
    pub fn of(alloc: Global, files: Vec<(Name, Text)>) -> Result<Files, NoMemory>
        requires distinct_names { HaveDistinctNames files.items }
        requires texts_in_limit { TextsFit files.items }
        ensures files { IfOk result (λ f. f ≡ opening_files files.items) }
    {
        let mut tree = Tree::Leaf;
        'files: for (name, text) in files {
            let row = StoredRow {
                name,
                text: Some(text),
                stamp: 0,
            };
            tree = tree.put(alloc, row)?;
        }
        Ok(Files {
            tree,
            names_stamp: 0,
        })
    }

    /// The text of a file, or `None` where no file of that name is there. It takes no memory.
    #[tactic(auto, using(crate::proofs::Puts::text_of_in_limit))]
    pub fn text(&self, name: &Name) -> Option<Piece<'_>>
        ensures text { result ≡ text_of self.now.rows name.now }
        ensures in_limit { IfSome result IsInLimit }
    {
        let row = self.tree.find(name)?;
        match &row.text {
            Some(text) => Some(Piece::of_text(text)),
            None => None,
        }
    }

    /// The text of a file in one piece, or `None` where no file of that name is there. It is shared with
    /// the files where it is in one piece there, else a copy.
    ///
    /// # Errors
    /// Only for want of memory.
    pub fn shared_text(&self, alloc: Global, name: &Name) -> Result<Option<Arc<List<u8>>>, NoMemory>
        ensures text { IfOk result (λ text. option_map arc_value text ≡ text_of self.now.rows name.now) }
        ensures in_limit { IfOk result (λ text. IfSome text (λ shared. IsInLimit (arc_value shared))) }
    {
        let Some(row) = self.tree.find(name) else {
            return Ok(None);
        };
        match &row.text {
            Some(text) => Ok(Some(text.whole(alloc)?)),
            None => Ok(None),
        }
    }

    /// The revision whose commit last touched the name, or 0 where none did. It takes no memory.
    pub fn stamp(&self, name: &Name) -> u64
        ensures { result ≡ stamp_of self.now.rows name.now }
    {
        match self.tree.find(name) {
            Some(row) => row.stamp,
            None => 0,
        }
    }

    /// How many files are there. It takes no memory.
    pub fn count(&self) -> usize
        ensures { result ≡ count self.now.rows }
    {
        self.tree.count()
    }

    /// The name of the file at this place, from 0, in byte order of the names, on condition that so
    /// many files are there. It takes no memory, and as many steps as a search.
    pub fn name(&self, i: usize) -> &Name
        requires { i < count self.now.rows }
        ensures { slice_get (names_in self.now.rows) i ≡ Some result.now }
    {
        self.tree.name_at(i)
    }

    /// The revision whose commit last left another set of names than it found, or 0 where none did. It
    /// takes no memory.
    pub fn names_stamp(&self) -> u64
        ensures { result ≡ self.now.names_stamp }
    {
        self.names_stamp
    }
}
