//! Units are read from their texts to elements, each once.
ghost use Rattle.std.specs.Prelude.{◌≡◌, ◌++◌, ◌<◌, ◌^◌, length, map, IfOk, OnOk};
ghost use Rattle.std.specs.List.{flat_map};
ghost use Rattle.sve_unit.specs.Chunks.{chunks_of, parts};
ghost use Rattle.sve_front.specs.Units.{unit_tokens, unit_names};
ghost use Rattle.sve_front.specs.Diagnostics.{chunk_diags, unit_diags};
ghost use Rattle.sve_front.specs.Elements.{AreElements, AreElementsOf};
ghost use Rattle.sve_front.specs.Trees.{AreTreesOf, IsTreeOf, tree_of};
ghost use Rattle.sve_front.specs.Readings.{ReadsChunk, Adds, AreCut, AreUnits, IsUnitOf};

use crate::cutting::{Cut, cut_of};
use crate::expanding::expansion;
use crate::unit::{Unit, chunk_tokens, unit_names};
use std::alloc::{AllocError, Global};
use std::sync::Arc;
use sve_bytes::{List, Name, NoMemory};
use sve_diag::{Diag, Place};
use sve_element::element;
use sve_grammar::Stop;
use sve_index::FileElement;
use sve_table::Table;
use sve_text::Files;
use sve_token::Token;
use sve_tree::Element;
use sve_unit::stop_diag;

/// What was read of the units of a revision.
#[derive(Drop)]
pub struct Reading {
    /// All units, in file order.
    pub units: Table<Unit>,
    /// The elements of the chunks that the grammar accepts, in file order and then text order. They are the trees of the units.
    pub elements: Vec<FileElement>,
    /// The diagnostics of each unit: those of its expansion, and one for each chunk that the grammar refuses.
    pub diags: Vec<Diag>,
}

fn add_copies(diags: &mut Vec<Diag>, more: &[Diag]) -> Result<(), NoMemory>
    ensures { OnOk result (diags.new.items ≡ diags.old.items ++ more.now) }
{
    for diag in more {
        diags.push(diag.copy()?)?;
    }
    Ok(())
}

/// Reads a chunk, and adds its element, or the diagnostic of the place where the grammar stops; and its tree, where it has one.
fn read_chunk(
    alloc: Global,
    file: &Name,
    n: u32,
    end: &Place,
    tokens: &[Token],
    elements: &mut Vec<FileElement>,
    diags: &mut Vec<Diag>,
) -> Result<Option<Arc<Element>>, NoMemory>
    requires few { length tokens.now < 2 ^ 32 }
    ensures elements { OnOk result (ReadsChunk file.now n tokens.now elements.old.items elements.new.items) }
    ensures diags { OnOk result (diags.new.items ≡ diags.old.items ++ chunk_diags end.now tokens.now) }
    ensures tree { IfOk result (λ tree. IsTreeOf tokens.now (tree_of tree)) }
{
    match element(alloc, tokens) {
        Ok(element) => {
            let tree = Arc::new(alloc, element)?;
            elements.push(FileElement {
                file: file.copy()?,
                chunk: n,
                element: Arc::try_clone(&tree)?,
            })?;
            Ok(Some(tree))
        }
        Err(Stop::At { index, deep }) => {
            diags.push(stop_diag(alloc, tokens, index, deep, end)?)?;
            Ok(None)
        }
        Err(Stop::NoMemory) => Err(AllocError),
    }
}

/// Reads the chunks of a unit, and gives their trees.
fn read_chunks(
    alloc: Global,
    unit: &Cut,
    elements: &mut Vec<FileElement>,
    diags: &mut Vec<Diag>,
) -> Result<List<Option<Arc<Element>>>, NoMemory>
    requires few { length unit.now.tokens < 2 ^ 32 }
    requires cut { unit.now.chunks ≡ chunks_of unit.now.tokens }
    ensures elements { OnOk result (Adds (AreElements unit.now.file 0 (parts unit.now.tokens)) elements.old.items elements.new.items) }
    ensures diags { OnOk result (diags.new.items ≡ diags.old.items ++ flat_map (chunk_diags unit.now.end) (parts unit.now.tokens)) }
    ensures trees { IfOk result (λ trees. AreTreesOf (parts unit.now.tokens) (map tree_of trees)) }
{
    let tokens = unit.tokens.items();
    let chunks = unit.chunks.items();
    let mut trees = Vec::new(alloc);
    'chunks: for n in 0..chunks.len() as u32 {
        let part = chunk_tokens(tokens, chunks, n as usize);
        let tree = read_chunk(alloc, &unit.file, n, &unit.end, part, elements, diags)?;
        trees.push(tree)?;
    }
    Ok(List::of(trees))
}

/// Reads the text of a unit once: its expansion, its tokens, its chunks and their trees.
fn read_unit(
    alloc: Global,
    files: &Files,
    name: &Name,
    elements: &mut Vec<FileElement>,
    diags: &mut Vec<Diag>,
) -> Result<Unit, NoMemory>
    ensures unit { IfOk result (λ unit. IsUnitOf files.now.rows unit) }
    ensures file { IfOk result (λ unit. unit.file ≡ name.now) }
    ensures elements { OnOk result (Adds (AreElements name.now 0 (parts (unit_tokens files.now.rows name.now))) elements.old.items elements.new.items) }
    ensures diags { OnOk result (diags.new.items ≡ diags.old.items ++ unit_diags files.now.rows name.now) }
{
    let text = expansion(alloc, files, name)?;
    add_copies(diags, text.diags())?;
    let cut = cut_of(alloc, files, name, &text)?;
    let trees = read_chunks(alloc, &cut, elements, diags)?;
    let Cut {
        file,
        end,
        tokens,
        chunks,
        nets,
    } = cut;
    Ok(Unit {
        file,
        end,
        tokens,
        chunks,
        nets,
        trees,
    })
}

/// Reads all units of a revision, in file order, each once.
///
/// # Errors
/// For want of memory alone.
pub fn read_units(alloc: Global, files: &Files) -> Result<Reading, NoMemory>
    ensures elements { IfOk result (λ r. AreElementsOf files.now.rows (unit_names files.now.rows) r.elements.items) }
    ensures diags { IfOk result (λ r. r.diags.items ≡ flat_map (unit_diags files.now.rows) (unit_names files.now.rows)) }
    ensures units { IfOk result (λ r. AreUnits files.now.rows r.units) }
    ensures cut { IfOk result (λ r. AreCut r.units) }
{
    let names = unit_names(alloc, files)?;
    let mut units = Table::new(alloc);
    let mut elements = Vec::new(alloc);
    let mut diags = Vec::new(alloc);
    'units: for name in names.iter() {
        let unit = read_unit(alloc, files, name, &mut elements, &mut diags)?;
        units.add(unit)?;
    }
    Ok(Reading {
        units,
        elements,
        diags,
    })
}
