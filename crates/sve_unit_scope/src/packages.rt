//! The packages that an element sees.
ghost use Rattle.std.specs.Prelude.{◌≡◌, OnOk};
ghost use Rattle.std.specs.Arc.{arc_value};
ghost use Rattle.sve_fault.specs.Counts.{IsFuel};
ghost use Rattle.sve_plan.specs.Plan.{and_then, each};
ghost use Rattle.sve_plan.specs.Follows.{Follows, leaving};
ghost use Rattle.sve_imports.specs.Naming.{own_words, packages_in};
ghost use Rattle.sve_unit_scope.specs.Packages.{is_sought, with_facts, with_package, with_packages, with_unit_packages};

use crate::elements::ChunkElement;
use std::alloc::Global;
use std::sync::Arc;
use sve_bytes::{Name, NoMemory};
use sve_facts::Facts;
use sve_imports::{imports, unit_imports};
use sve_index::Index;
use sve_known::Known;
use sve_look::Look;
use sve_plan::{Fuel, Stop};
use sve_question::ask_package;
use sve_table::Table;
use sve_tree::Element;

/// Whether a package is to be asked for: the design has it, and it was not asked for yet.
fn is_sought(index: &Index, known: &Table<Known>, name: &Name) -> bool
    ensures { result ≡ is_sought index.now known.now name.now }
{
    index.packages.get(name).is_some() && known.get(name).is_none()
}

/// Adds what is found of a package.
fn add_facts(
    alloc: Global,
    known: &mut Table<Known>,
    name: &Name,
    facts: Arc<Facts>,
) -> Result<(), NoMemory>
    ensures { OnOk result (known.new ≡ with_facts known.old name.now (arc_value facts)) }
{
    known.add(Known::of(alloc, name.copy()?, facts)?)?;
    Ok(())
}

/// Asks for a package where it is to be asked for, and adds it.
fn add_package<W: Look>(
    alloc: Global,
    index: &Index,
    name: &Name,
    known: &mut Table<Known>,
    world: &mut W,
    fuel: &Fuel,
) -> Result<(), Stop>
    requires { IsFuel fuel.now }
    ensures { Follows (record { tells = W.tells; keeps = W.keeps; halted = W.halted; stops = W.stops; asked = W.asked }) world.old world.new fuel.now fuel.now (with_package index.now name.now known.old) (leaving result known.new) }
{
    if !is_sought(index, known, name) {
        return Ok(());
    }
    let facts = ask_package(name, world, fuel)?;
    add_facts(alloc, known, name, facts)?;
    Ok(())
}

/// Packages, in the order of their names.
fn add_packages<W: Look>(
    alloc: Global,
    index: &Index,
    names: &[Name],
    known: &mut Table<Known>,
    world: &mut W,
    fuel: &Fuel,
) -> Result<(), Stop>
    requires { IsFuel fuel.now }
    ensures { Follows (record { tells = W.tells; keeps = W.keeps; halted = W.halted; stops = W.stops; asked = W.asked }) world.old world.new fuel.now fuel.now (with_packages index.now names.now known.old) (leaving result known.new) }
{
    'names: for name in names {
        add_package(alloc, index, name, known, world, fuel)?;
    }
    Ok(())
}

/// The packages that an element's items of the compilation unit's scope name.
fn add_unit_packages<W: Look>(
    alloc: Global,
    index: &Index,
    one: &ChunkElement,
    known: &mut Table<Known>,
    world: &mut W,
    fuel: &Fuel,
) -> Result<(), Stop>
    requires { IsFuel fuel.now }
    ensures { Follows (record { tells = W.tells; keeps = W.keeps; halted = W.halted; stops = W.stops; asked = W.asked }) world.old world.new fuel.now fuel.now (with_unit_packages index.now one.now known.old) (leaving result known.new) }
{
    let names = unit_imports(alloc, one.element())?;
    add_packages(alloc, index, names.as_slice(), known, world, fuel)
}

/// The same of elements, in their order.
fn add_all_unit_packages<W: Look>(
    alloc: Global,
    index: &Index,
    all: &[ChunkElement],
    known: &mut Table<Known>,
    world: &mut W,
    fuel: &Fuel,
) -> Result<(), Stop>
    requires { IsFuel fuel.now }
    ensures { Follows (record { tells = W.tells; keeps = W.keeps; halted = W.halted; stops = W.stops; asked = W.asked }) world.old world.new fuel.now fuel.now (each (with_unit_packages index.now) all.now known.old) (leaving result known.new) }
{
    'all: for one in all {
        add_unit_packages(alloc, index, one, known, world, fuel)?;
    }
    Ok(())
}

/// Adds the packages that the elements of a compilation unit name in its scope, and then those that an element itself names (IEEE 1800-2017,
/// 3.12.1 and 26.3): each is asked for once, in the order of the text, where the design has it. It spends no fuel.
///
/// # Errors
/// As the object halts, or for want of memory.
pub fn add_packages_named<W: Look>(
    alloc: Global,
    index: &Index,
    all: &[ChunkElement],
    own: &Element,
    known: &mut Table<Known>,
    world: &mut W,
    fuel: &Fuel,
) -> Result<(), Stop>
    requires { IsFuel fuel.now }
    ensures { Follows (record { tells = W.tells; keeps = W.keeps; halted = W.halted; stops = W.stops; asked = W.asked }) world.old world.new fuel.now fuel.now (and_then (each (with_unit_packages index.now) all.now known.old) (with_packages index.now (packages_in (own_words own.now)))) (leaving result known.new) }
{
    add_all_unit_packages(alloc, index, all, known, world, fuel)?;
    let names = imports(alloc, own)?;
    add_packages(alloc, index, names.as_slice(), known, world, fuel)
}
