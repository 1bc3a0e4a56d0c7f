//! The elements of a file up to a chunk.
ghost use Rattle.std.specs.Prelude.{◌≡◌, OnOk};
ghost use Rattle.std.specs.List.{range_with_len};
ghost use Rattle.sve_fault.specs.Counts.{IsFuel};
ghost use Rattle.sve_plan.specs.Plan.{each};
ghost use Rattle.sve_plan.specs.Follows.{Follows, leaving};
ghost use Rattle.sve_look.specs.Questions.{element_in};
ghost use Rattle.sve_unit_scope.specs.Elements.{element_of, with_element};

use std::marker::Model;
use std::sync::Arc;
use sve_bytes::{Name, NoMemory};
use sve_look::Look;
use sve_plan::{Fuel, Stop};
use sve_question::ask_element;
use sve_tree::Element;

/// The tree of a chunk, with the number of the chunk in its file, from 0. A clause sees both as values.
#[derive(Drop)]
pub struct ChunkElement {
    number: u32,
    tree: Arc<Element>,
}

impl Model for ChunkElement {
    ghost use Rattle.std.specs.Arc.{arc_value};
    ghost use Rattle.sve_unit_scope.specs.Elements.{ChunkElement as Placed, chunk_element_code};

    ghost Value = { Placed };

    ghost coded = { chunk_element_code };

    ghost view = { λ e. record { chunk = e.number; element = arc_value e.tree } };
}

impl ChunkElement {
    /// The number of the chunk.
    pub fn chunk(&self) -> u32
        ensures { result ≡ self.now.chunk }
    {
        self.number
    }

    /// The tree.
    pub fn element(&self) -> &Element
        ensures { result.now ≡ self.now.element }
    {
        &self.tree
    }
}

/// Adds the tree of a chunk, where it has one.
fn add_element(
    elements: &mut Vec<ChunkElement>,
    chunk: u32,
    element: Option<Arc<Element>>,
) -> Result<(), NoMemory>
    ensures { OnOk result (elements.new.items ≡ with_element elements.old.items chunk (element_in element)) }
{
    if let Some(tree) = element {
        elements.push(ChunkElement {
            number: chunk,
            tree,
        })?;
    }
    Ok(())
}

/// Asks for the tree of a chunk, and adds it.
fn one_more<W: Look>(
    file: &Name,
    chunk: u32,
    elements: &mut Vec<ChunkElement>,
    world: &mut W,
    fuel: &Fuel,
) -> Result<(), Stop>
    requires { IsFuel fuel.now }
    ensures { Follows (record { tells = W.tells; keeps = W.keeps; halted = W.halted; stops = W.stops; asked = W.asked }) world.old world.new fuel.now fuel.now (element_of file.now chunk elements.old.items) (leaving result elements.new.items) }
{
    let element = ask_element(file, chunk, world, fuel)?;
    add_element(elements, chunk, element)?;
    Ok(())
}

/// Adds the trees of the chunks of a file in front of one, each of which is asked for once, in the order of the text. It spends no fuel.
///
/// # Errors
/// As the object halts, or for want of memory.
pub fn elements_before<W: Look>(
    file: &Name,
    end: u32,
    elements: &mut Vec<ChunkElement>,
    world: &mut W,
    fuel: &Fuel,
) -> Result<(), Stop>
    requires { IsFuel fuel.now }
    ensures { Follows (record { tells = W.tells; keeps = W.keeps; halted = W.halted; stops = W.stops; asked = W.asked }) world.old world.new fuel.now fuel.now (each (element_of file.now) (range_with_len 0 end) elements.old.items) (leaving result elements.new.items) }
{
    'chunks: for chunk in 0..end {
        one_more(file, chunk, elements, world, fuel)?;
    }
    Ok(())
}
