//! The definition of a specialization, and its body, as far as it is gone over.
ghost use Rattle.std.specs.Prelude.{◌≡◌, Option, option_map};
ghost use Rattle.sve_fault.specs.Counts.{IsFuel};
ghost use Rattle.sve_table.specs.Tables.{item_of};
ghost use Rattle.sve_index.specs.Defs.{def_name};
ghost use Rattle.sve_plan.specs.Follows.{Follows};
ghost use Rattle.sve_look.specs.Questions.{element_in};
ghost use Rattle.sve_tree.specs.Elements.{element_definition};
ghost use Rattle.sve_elaborate.specs.Bodies.{at_definition, at_place, elaborated_to, in_designs, of_definition, of_element, of_tree, within};

use crate::extent::Extent;
use crate::within::{body_in, scope_in_unit};
use std::alloc::Global;
use std::sync::Arc;
use sve_design_kinds::{Designs, designs_named};
use sve_facts::Facts;
use sve_function::Constants;
use sve_index::{Def, Index};
use sve_known::Known;
use sve_look::Look;
use sve_plan::{Fuel, Stop};
use sve_question::{ask_element, ask_index};
use sve_scoped::Text;
use sve_spec::Spec;
use sve_table::Table;
use sve_tree::{Definition, Element};
use sve_unit_scope::{ChunkElement, add_packages_named, elements_before};

/// The body of a definition, over the packages that are known, the elements in front of its own, and what the modules and interfaces are that
/// it names.
fn within<W: Look>(
    alloc: Global,
    extent: Extent,
    packages: &Table<Known>,
    designs: &Designs,
    spec: &Spec,
    def: &Def,
    elements: &[ChunkElement],
    own: &Element,
    definition: &Definition,
    world: &mut W,
    fuel: &mut Fuel,
) -> Result<Facts, Stop>
    requires { IsFuel fuel.old }
    ensures { Follows (record { tells = W.tells; keeps = W.keeps; halted = W.halted; stops = W.stops; asked = W.asked }) world.old world.new fuel.old fuel.new (within extent packages.now designs.now spec.now def.now elements.now own.now definition.now) result }
{
    let contents = scope_in_unit(
        alloc, &Constants, packages, &def.file, def.chunk, elements, own,
    )?;
    let text = Text {
        packages,
        words: own.words.as_slice(),
    };
    body_in(
        alloc,
        extent,
        text,
        designs,
        spec.values.items(),
        contents,
        definition,
        world,
        fuel,
    )
}

/// The body of a definition, which asks first what the modules and interfaces are that it names.
fn in_designs<W: Look>(
    alloc: Global,
    extent: Extent,
    index: &Index,
    packages: &Table<Known>,
    spec: &Spec,
    def: &Def,
    elements: &[ChunkElement],
    own: &Element,
    definition: &Definition,
    world: &mut W,
    fuel: &mut Fuel,
) -> Result<Facts, Stop>
    requires { IsFuel fuel.old }
    ensures { Follows (record { tells = W.tells; keeps = W.keeps; halted = W.halted; stops = W.stops; asked = W.asked }) world.old world.new fuel.old fuel.new (in_designs extent index.now packages.now spec.now def.now elements.now own.now definition.now) result }
{
    let instantiations = extent.instantiations(alloc, own)?;
    let names = extent.own_names(alloc, own)?;
    let faces = spec.faces.items();
    let words = own.words.as_slice();
    let header = &definition.header;
    let designs = designs_named(
        alloc,
        index,
        words,
        header,
        instantiations,
        names,
        faces,
        world,
        fuel,
    )?;
    within(
        alloc, extent, packages, &designs, spec, def, elements, own, definition, world, fuel,
    )
}

/// The body of an element, by whether it has a module or an interface.
fn of_definition<W: Look>(
    alloc: Global,
    extent: Extent,
    index: &Index,
    packages: &Table<Known>,
    spec: &Spec,
    def: &Def,
    elements: &[ChunkElement],
    own: &Element,
    world: &mut W,
    fuel: &mut Fuel,
) -> Result<Facts, Stop>
    requires { IsFuel fuel.old }
    ensures { Follows (record { tells = W.tells; keeps = W.keeps; halted = W.halted; stops = W.stops; asked = W.asked }) world.old world.new fuel.old fuel.new (of_definition extent index.now packages.now spec.now def.now elements.now own.now (element_definition own.now)) result }
{
    match own.definition() {
        Some(definition) => {
            in_designs(
                alloc, extent, index, packages, spec, def, elements, own, definition, world, fuel,
            )
        }
        None => Ok(Facts::none(alloc)),
    }
}

/// The body of an element, whose packages are asked for first.
fn of_tree<W: Look>(
    alloc: Global,
    extent: Extent,
    index: &Index,
    spec: &Spec,
    def: &Def,
    elements: &[ChunkElement],
    own: &Element,
    world: &mut W,
    fuel: &mut Fuel,
) -> Result<Facts, Stop>
    requires { IsFuel fuel.old }
    ensures { Follows (record { tells = W.tells; keeps = W.keeps; halted = W.halted; stops = W.stops; asked = W.asked }) world.old world.new fuel.old fuel.new (of_tree extent index.now spec.now def.now elements.now own.now) result }
{
    let mut packages = Table::new(alloc);
    add_packages_named(alloc, index, elements, own, &mut packages, world, fuel)?;
    of_definition(
        alloc, extent, index, &packages, spec, def, elements, own, world, fuel,
    )
}

/// The body of a chunk, by whether it has a tree.
fn of_element<W: Look>(
    alloc: Global,
    extent: Extent,
    index: &Index,
    spec: &Spec,
    def: &Def,
    elements: &[ChunkElement],
    own: &Option<Arc<Element>>,
    world: &mut W,
    fuel: &mut Fuel,
) -> Result<Facts, Stop>
    requires { IsFuel fuel.old }
    ensures { Follows (record { tells = W.tells; keeps = W.keeps; halted = W.halted; stops = W.stops; asked = W.asked }) world.old world.new fuel.old fuel.new (of_element extent index.now spec.now def.now elements.now (element_in own.now)) result }
{
    match own {
        Some(own) => of_tree(alloc, extent, index, spec, def, elements, own, world, fuel),
        None => Ok(Facts::none(alloc)),
    }
}

/// The body of the definition that stands there.
fn at_definition<W: Look>(
    alloc: Global,
    extent: Extent,
    index: &Index,
    spec: &Spec,
    def: &Def,
    world: &mut W,
    fuel: &mut Fuel,
) -> Result<Facts, Stop>
    requires { IsFuel fuel.old }
    ensures { Follows (record { tells = W.tells; keeps = W.keeps; halted = W.halted; stops = W.stops; asked = W.asked }) world.old world.new fuel.old fuel.new (at_definition extent index.now spec.now def.now) result }
{
    let mut elements = Vec::new(alloc);
    elements_before(&def.file, def.chunk, &mut elements, world, fuel)?;
    let own = ask_element(&def.file, def.chunk, world, fuel)?;
    of_element(
        alloc,
        extent,
        index,
        spec,
        def,
        elements.as_slice(),
        &own,
        world,
        fuel,
    )
}

/// Where the definition of a specialization stands.
fn place_of<'a>(index: &'a Index, spec: &Spec) -> Option<&'a Def>
    ensures { option_map (λ d. d.now) result ≡ item_of def_name spec.now.definition index.now.definitions }
{
    index.definitions.get(&spec.definition)
}

/// The body of a specialization, by where its definition stands.
fn at_place<W: Look>(
    alloc: Global,
    extent: Extent,
    index: &Index,
    spec: &Spec,
    world: &mut W,
    fuel: &mut Fuel,
) -> Result<Facts, Stop>
    requires { IsFuel fuel.old }
    ensures { Follows (record { tells = W.tells; keeps = W.keeps; halted = W.halted; stops = W.stops; asked = W.asked }) world.old world.new fuel.old fuel.new (at_place extent index.now spec.now (item_of def_name spec.now.definition index.now.definitions)) result }
{
    match place_of(index, spec) {
        Some(def) => at_definition(alloc, extent, index, spec, def, world, fuel),
        None => Ok(Facts::none(alloc)),
    }
}

/// What is found of a specialization in so much of its text.
pub(crate) fn elaborated_to<W: Look>(
    alloc: Global,
    extent: Extent,
    spec: &Spec,
    world: &mut W,
    fuel: &mut Fuel,
) -> Result<Facts, Stop>
    requires { IsFuel fuel.old }
    ensures { Follows (record { tells = W.tells; keeps = W.keeps; halted = W.halted; stops = W.stops; asked = W.asked }) world.old world.new fuel.old fuel.new (elaborated_to extent spec.now) result }
{
    let index = ask_index(world, fuel)?;
    at_place(alloc, extent, &index, spec, world, fuel)
}
