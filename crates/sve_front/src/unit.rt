//! The units of a revision: their names, and what they are read as.
ghost use Rattle.std.specs.Prelude.{◌≡◌, ◌≤◌, ◌++◌, ◌∷◌, [], length, IfOk, OnOk};
ghost use Rattle.std.specs.List.{filter, slice_index_or};
ghost use Rattle.sve_unit.specs.Chunks.{chunks_of, parts};
ghost use Rattle.sve_front.specs.Units.{is_unit_name, unit_names, file_end};

use std::alloc::Global;
use std::sync::Arc;
use sve_bytes::{List, Name, NetType, NoMemory};
use sve_diag::Place;
use sve_table::Named;
use sve_text::Files;
use sve_token::Token;
use sve_tree::Element;
use sve_unit::Chunk;

/// A unit of a revision, read from its text to its trees.
pub struct Unit {
    /// The name of the file.
    pub file: Name,
    /// The end of the file.
    pub end: Place,
    /// Its tokens.
    pub tokens: List<Token>,
    /// Its chunks, in order.
    pub chunks: List<Chunk>,
    /// The net type in force where each of its tokens begins (IEEE 1800-2017, 22.8).
    pub nets: List<NetType>,
    /// The tree of each of its chunks, in order, or none, where the grammar refuses the chunk.
    pub trees: List<Option<Arc<Element>>>,
}

impl Drop for Unit {
    fn drop(self) {
        let Unit {
            file: _,
            end: _,
            tokens: _,
            chunks: _,
            nets: _,
            trees: _,
        } = self;
    }
}

impl Named for Unit {
    ghost called = { λ u. u.file };

    fn name(&self) -> &Name {
        &self.file
    }
}

/// Whether a file of this name is a unit: its name ends in `.sv` or `.v` (own).
fn is_unit_name(name: &Name) -> bool
    ensures { result ≡ is_unit_name name.now }
{
    let bytes = name.bytes();
    bytes.ends_with(b".sv") || bytes.ends_with(b".v")
}

/// Adds a name, where a file of this name is a unit.
fn add_unit_name(names: &mut Vec<Name>, name: &Name) -> Result<(), NoMemory>
    ensures { OnOk result (names.new.items ≡ names.old.items ++ filter is_unit_name (name.now ∷ [])) }
{
    if is_unit_name(name) {
        names.push(name.copy()?)?;
    }
    Ok(())
}

/// The names of the units, in file order.
#[tactic(auto, using(crate::proofs::Names::next_name))]
pub(crate) fn unit_names(alloc: Global, files: &Files) -> Result<Vec<Name>, NoMemory>
    ensures { IfOk result (λ names. names.items ≡ unit_names files.now.rows) }
{
    let mut names = Vec::new(alloc);
    'files: for i in 0..files.count() {
        add_unit_name(&mut names, files.name(i))?;
    }
    Ok(names)
}

/// The end of a file; that of a file that is not there is where it would begin.
pub(crate) fn file_end(files: &Files, name: &Name) -> Result<Place, NoMemory>
    ensures { IfOk result (λ p. p ≡ file_end files.now.rows name.now) }
{
    let length = match files.text(name) {
        Some(text) => text.len(),
        None => 0,
    };
    Ok(Place {
        file: name.copy()?,
        offset: length as u32,
    })
}

/// The tokens of the chunk of this number, from 0; where there is none, no tokens. It takes no memory.
pub(crate) fn chunk_tokens<'a>(tokens: &'a [Token], chunks: &[Chunk], n: usize) -> &'a [Token]
    requires cut { chunks.now ≡ chunks_of tokens.now }
    ensures tokens { result.now ≡ slice_index_or (parts tokens.now) n [] }
    ensures within { length result.now ≤ length tokens.now }
{
    match chunks.get(n) {
        Some(chunk) => &tokens[chunk.from as usize..chunk.to as usize],
        None => &[],
    }
}
