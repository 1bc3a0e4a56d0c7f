//! What modules and interfaces are, by their names.
ghost use Rattle.std.specs.Prelude.{◌≡◌, OnOk, Some, option_map};
ghost use Rattle.sve_fault.specs.Counts.{IsFuel};
ghost use Rattle.sve_plan.specs.Plan.{each};
ghost use Rattle.sve_plan.specs.Follows.{Follows, leaving};
ghost use Rattle.sve_look.specs.Questions.{element_in};
ghost use Rattle.sve_known.specs.Naming.{name_at};
ghost use Rattle.sve_iface.specs.Names.{interface_names};
ghost use Rattle.sve_design_kinds.specs.Kinds.{asked_at, definition_asked, known_kind, sought, with_design, with_design_of, with_element, with_name, with_names, with_token};

use std::alloc::Global;
use std::sync::Arc;
use sve_bytes::{Name, NoMemory};
use sve_iface::interface_names;
use sve_index::{Def, Index};
use sve_known::name_at;
use sve_look::Look;
use sve_plan::{Fuel, Stop};
use sve_port::DesignKind;
use sve_question::ask_element;
use sve_scope::SharedInterface;
use sve_table::{Named, Table};
use sve_tree::{Definition, Design, Element, Word};

/// A module, or an interface with the names that it gives.
#[derive(Drop)]
pub struct KnownDesign {
    /// Its name.
    pub name: Name,
    /// Of an interface its names; a module has none.
    pub names: Option<SharedInterface>,
}

impl Named for KnownDesign {
    ghost called = { λ k. k.name };

    fn name(&self) -> &Name {
        &self.name
    }
}

impl KnownDesign {
    /// What it is. It takes no memory.
    pub fn kind(&self) -> DesignKind
        ensures { result ≡ known_kind self.now }
    {
        match &self.names {
            Some(_) => DesignKind::Interface,
            None => DesignKind::Module,
        }
    }
}

/// Adds a module or an interface of a name, with the names of the latter.
fn add_names(
    known: &mut Table<KnownDesign>,
    name: &Name,
    names: Option<SharedInterface>,
) -> Result<(), NoMemory>
    ensures { OnOk result (known.new ≡ with_names known.old name.now names) }
{
    known.add(KnownDesign {
        name: name.copy()?,
        names,
    })?;
    Ok(())
}

/// Adds an interface, with the names of its text.
fn add_interface(
    alloc: Global,
    known: &mut Table<KnownDesign>,
    name: &Name,
    words: &[Word],
    definition: &Definition,
) -> Result<(), NoMemory>
    ensures { OnOk result (known.new ≡ with_names known.old name.now (Some (interface_names words.now definition.now))) }
{
    let names = interface_names(alloc, words, definition)?;
    let names = SharedInterface::of(alloc, names)?;
    add_names(known, name, Some(names))
}

/// Adds what a design is, where it is no package.
fn add_design(
    alloc: Global,
    known: &mut Table<KnownDesign>,
    name: &Name,
    words: &[Word],
    design: &Design,
) -> Result<(), NoMemory>
    ensures { OnOk result (known.new ≡ with_design known.old name.now words.now design.now) }
{
    match design {
        Design::Module { .. } => add_names(known, name, None),
        Design::Interface { definition, .. } => add_interface(
            alloc, known, name, words, definition,
        ),
        Design::Package { .. } => Ok(()),
    }
}

/// Adds what the design of an element is, where it has one.
fn add_design_of(
    alloc: Global,
    known: &mut Table<KnownDesign>,
    name: &Name,
    element: &Element,
) -> Result<(), NoMemory>
    ensures { OnOk result (known.new ≡ with_design_of known.old name.now element.now) }
{
    match &element.design {
        Some(design) => add_design(alloc, known, name, &element.words, design),
        None => Ok(()),
    }
}

/// Adds what the design of a chunk is, which may be refused.
fn add_element(
    alloc: Global,
    known: &mut Table<KnownDesign>,
    name: &Name,
    element: &Option<Arc<Element>>,
) -> Result<(), NoMemory>
    ensures { OnOk result (known.new ≡ with_element known.old name.now (element_in element.now)) }
{
    match element {
        Some(element) => add_design_of(alloc, known, name, element),
        None => Ok(()),
    }
}

/// Where a name is to be asked for: the design has a definition of it, and it was not found yet what it is.
fn sought<'a>(index: &'a Index, known: &Table<KnownDesign>, name: &Name) -> Option<&'a Def>
    ensures { option_map (λ d. d.now) result ≡ sought index.now known.now name.now }
{
    if known.get(name).is_some() {
        return None;
    }
    index.definitions.get(name)
}

/// Asks for the element of a definition, and adds what it is.
fn add_definition<W: Look>(
    alloc: Global,
    name: &Name,
    def: &Def,
    known: &mut Table<KnownDesign>,
    world: &mut W,
    fuel: &Fuel,
) -> Result<(), Stop>
    requires { IsFuel fuel.now }
    ensures { Follows (record { tells = W.tells; keeps = W.keeps; halted = W.halted; stops = W.stops; asked = W.asked }) world.old world.new fuel.now fuel.now (definition_asked name.now def.now known.old) (leaving result known.new) }
{
    let element = ask_element(&def.file, def.chunk, world, fuel)?;
    add_element(alloc, known, name, &element)?;
    Ok(())
}

/// Adds what a name is.
fn add_name<W: Look>(
    alloc: Global,
    index: &Index,
    name: &Name,
    known: &mut Table<KnownDesign>,
    world: &mut W,
    fuel: &Fuel,
) -> Result<(), Stop>
    requires { IsFuel fuel.now }
    ensures { Follows (record { tells = W.tells; keeps = W.keeps; halted = W.halted; stops = W.stops; asked = W.asked }) world.old world.new fuel.now fuel.now (asked_at name.now (sought index.now known.old name.now) known.old) (leaving result known.new) }
{
    match sought(index, known, name) {
        Some(def) => add_definition(alloc, name, def, known, world, fuel),
        None => Ok(()),
    }
}

/// Adds what the name at a token is.
fn add_token<W: Look>(
    alloc: Global,
    index: &Index,
    words: &[Word],
    token: u32,
    known: &mut Table<KnownDesign>,
    world: &mut W,
    fuel: &Fuel,
) -> Result<(), Stop>
    requires { IsFuel fuel.now }
    ensures { Follows (record { tells = W.tells; keeps = W.keeps; halted = W.halted; stops = W.stops; asked = W.asked }) world.old world.new fuel.now fuel.now (with_name index.now (name_at words.now token) known.old) (leaving result known.new) }
{
    match name_at(words, token) {
        Some(name) => add_name(alloc, index, name, known, world, fuel),
        None => Ok(()),
    }
}

/// Adds what the names at tokens are, each of which is asked for once. It spends no fuel.
pub(crate) fn add_tokens<W: Look>(
    alloc: Global,
    index: &Index,
    words: &[Word],
    tokens: &[u32],
    known: &mut Table<KnownDesign>,
    world: &mut W,
    fuel: &Fuel,
) -> Result<(), Stop>
    requires { IsFuel fuel.now }
    ensures { Follows (record { tells = W.tells; keeps = W.keeps; halted = W.halted; stops = W.stops; asked = W.asked }) world.old world.new fuel.now fuel.now (each (with_token index.now words.now) tokens.now known.old) (leaving result known.new) }
{
    'tokens: for token in tokens {
        add_token(alloc, index, words, *token, known, world, fuel)?;
    }
    Ok(())
}
