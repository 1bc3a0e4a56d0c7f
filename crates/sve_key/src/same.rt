//! Whether two values are one.
ghost use Rattle.std.specs.Prelude.{◌≡◌, ◌↔◌, ◌<◌, IsTrue, length, slice_get};

use crate::file_text::FileText;
use crate::file_tokens::FileTokens;
use crate::reading::{Read, Reading};
use crate::value::Value;
use sve_index::{Def, Index};
use sve_same::{Same, same_items};
use sve_table::Table;

impl Same for FileText {
    #[tactic(auto, using(crate::proofs::Records::one_text))]
    fn same(&self, other: &FileText) -> bool {
        if self.stamp() != other.stamp() {
            return false;
        }
        match (self.bytes(), other.bytes()) {
            (None, None) => true,
            (Some(bytes), Some(others)) => bytes == others,
            _ => false,
        }
    }
}

impl Same for FileTokens {
    #[tactic(auto, using(crate::proofs::Records::one_file))]
    fn same(&self, other: &FileTokens) -> bool {
        same_items(self.tokens(), other.tokens())
            && same_items(self.diags(), other.diags())
            && same_items(self.net_types(), other.net_types())
    }
}

impl Same for Reading {
    fn same(&self, other: &Reading) -> bool {
        match (&self.read, &other.read) {
            (Read::Whole(element), Read::Whole(other)) => {
                same_items(element.words.as_slice(), other.words.as_slice())
            }
            (
                Read::Stopped { index, deep },
                Read::Stopped {
                    index: at,
                    deep: too_deep,
                },
            ) => index == at && deep == too_deep,
            _ => false,
        }
    }
}

/// Whether two tables, which both have so many definitions, have the same one at this place.
fn same_at(table: &Table<Def>, other: &Table<Def>, i: usize) -> bool
    requires table { i < length table.now }
    requires other { i < length other.now }
    ensures { IsTrue result ↔ (slice_get table.now i ≡ slice_get other.now i) }
{
    table.at(i).same(other.at(i))
}

/// Whether two tables have the same definitions in the same order.
#[tactic(auto, using(crate::proofs::Taken::take_more))]
fn same_table(table: &Table<Def>, other: &Table<Def>) -> bool
    ensures { IsTrue result ↔ (table.now ≡ other.now) }
{
    if table.len() != other.len() {
        return false;
    }
    'defs: for i in 0..table.len() {
        let same = same_at(table, other, i);
        if !same {
            return false;
        }
    }
    true
}

/// Whether two indexes say the same.
#[tactic(auto, using(crate::proofs::Records::one_index))]
fn same_index(index: &Index, other: &Index) -> bool
    ensures { IsTrue result ↔ (index.now ≡ other.now) }
{
    same_table(&index.definitions, &other.definitions)
        && same_table(&index.packages, &other.packages)
        && same_items(index.tops.items(), other.tops.items())
        && same_items(index.diags.items(), other.diags.items())
}

impl Value {
    /// Whether the two are one value. It takes no memory.
    pub fn is(&self, other: &Value) -> bool
        ensures { IsTrue result ↔ (self.now ≡ other.now) }
    {
        match (self, other) {
            (Value::Text(text), Value::Text(other)) => text.same(other),
            (Value::Names(names), Value::Names(other)) => same_items(names.items(), other.items()),
            (Value::Tokens(file), Value::Tokens(other)) => file.same(other),
            (Value::Chunks(chunks), Value::Chunks(other)) => {
                same_items(chunks.items(), other.items())
            }
            (Value::Element(reading), Value::Element(other)) => reading.same(other),
            (Value::Index(index), Value::Index(other)) => same_index(index, other),
            _ => false,
        }
    }
}
