//! A body in its scope.
ghost use Rattle.std.specs.Prelude.{◌≡◌, IfOk};
ghost use Rattle.sve_fault.specs.Counts.{IsFuel};
ghost use Rattle.sve_plan.specs.Follows.{Follows};
ghost use Rattle.sve_contents.specs.Nested.{entered};
ghost use Rattle.sve_unit_scope.specs.Units.{unit_of};
ghost use Rattle.sve_elaborate.specs.Bodies.{body_in};

use crate::extent::Extent;
use std::alloc::Global;
use sve_body_whole::body;
use sve_bytes::{Name, NoMemory};
use sve_contents::Contents;
use sve_design_kinds::Designs;
use sve_elaboration::Elaboration;
use sve_facts::Facts;
use sve_known::Known;
use sve_look::Look;
use sve_package::Typing;
use sve_plan::{Fuel, Stop};
use sve_scoped::Text;
use sve_spec::Given;
use sve_table::Table;
use sve_tree::{Definition, Element};
use sve_unit_scope::{ChunkElement, unit_of};

/// The scope of a body before its text, inside of that of the compilation unit (IEEE 1800-2017, 3.12.1 and 23.9).
pub(crate) fn scope_in_unit<T: Typing>(
    alloc: Global,
    typing: &T,
    packages: &Table<Known>,
    file: &Name,
    chunk: u32,
    elements: &[ChunkElement],
    own: &Element,
) -> Result<Contents, NoMemory>
    ensures { IfOk result (λ c. c ≡ entered (unit_of (T.reads typing.now) packages.now file.now chunk elements.now own.now)) }
{
    let unit = unit_of(alloc, typing, packages, file, chunk, elements, own)?;
    unit.entered(alloc)
}

/// What is found of a body whose text begins in this scope, as far as it is gone over.
pub(crate) fn body_in<W: Look>(
    alloc: Global,
    extent: Extent,
    text: Text,
    designs: &Designs,
    given: &[Given],
    contents: Contents,
    definition: &Definition,
    world: &mut W,
    fuel: &mut Fuel,
) -> Result<Facts, Stop>
    requires { IsFuel fuel.old }
    ensures { Follows (record { tells = W.tells; keeps = W.keeps; halted = W.halted; stops = W.stops; asked = W.asked }) world.old world.new fuel.old fuel.new (body_in extent text.entry.packages.now text.entry.words.now designs.now given.now contents definition.now) result }
{
    let mut work = Elaboration::begun(alloc, text, designs, given, contents, definition)?;
    body(
        alloc,
        &mut work,
        &definition.header,
        extent.items(definition),
        world,
        fuel,
    )?;
    let facts = work.into_facts()?;
    Ok(facts)
}
