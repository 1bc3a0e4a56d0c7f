//! The modules and interfaces that a definition names, as what is known around its ports and instances.
ghost use Rattle.std.specs.Prelude.{◌≡◌, ◌++◌, IfOk, option_map};
ghost use Rattle.sve_fault.specs.Counts.{IsFuel};
ghost use Rattle.sve_plan.specs.Follows.{Follows};
ghost use Rattle.sve_design_kinds.specs.Kinds.{kind_in};
ghost use Rattle.sve_design_kinds.specs.Names.{header_names};
ghost use Rattle.sve_design_kinds.specs.Faces.{unknown_modports};
ghost use Rattle.sve_design_kinds.specs.Designs.{designs_named, has_modport_in, interface_at, interface_if, interface_of, is_instance};

use crate::beginnings::Beginnings;
use crate::faces::{names_in, port_faces, unknown_modports};
use crate::kinds::{KnownDesign, add_tokens};
use crate::names::add_header_names;
use std::alloc::Global;
use std::marker::Model;
use sve_around::Instances;
use sve_bytes::{Name, NoMemory};
use sve_index::Index;
use sve_known::name_at;
use sve_look::Look;
use sve_plan::{Fuel, Stop};
use sve_port::{DesignKind, Interfaces};
use sve_scope::{Declared, InterfaceNames, PortFace, What};
use sve_spec::FaceGiven;
use sve_table::Table;
use sve_tree::{Header, Word};

/// The modules and interfaces that a definition names, where it instantiates them, and what it is itself: the names of an interface, and what
/// its interface ports are connected to. A clause sees all of it as values.
#[derive(Drop)]
pub struct Designs<'a> {
    words: &'a [Word],
    kinds: Table<KnownDesign>,
    instantiations: Beginnings,
    own: Option<InterfaceNames>,
    faces: Table<PortFace>,
}

impl<'a> Model for Designs<'a> {
    ghost use Rattle.sve_design_kinds.specs.Designs.{Designs as Named, designs_code};

    ghost Value = { Named };

    ghost coded = { designs_code };

    ghost view = { λ d. record { words = d.words.now; kinds = d.kinds; instantiations = d.instantiations; own = d.own; faces = d.faces } };
}

/// What a name is, where that is known.
fn kind_in(kinds: &Table<KnownDesign>, name: &Name) -> Option<DesignKind>
    ensures { result ≡ kind_in kinds.now name.now }
{
    match kinds.get(name) {
        Some(design) => Some(design.kind()),
        None => None,
    }
}

/// Whether something declared is an instance.
fn is_instance(what: &What) -> bool
    ensures { result ≡ is_instance what.now }
{
    matches!(what, What::Instance)
}

/// The name of an interface, and not that of a module.
fn interface_if(kind: Option<DesignKind>, name: &Name) -> Option<&Name>
    ensures { option_map (λ n. n.now) result ≡ interface_if kind name.now }
{
    match kind {
        Some(DesignKind::Interface) => Some(name),
        Some(DesignKind::Module) => None,
        None => None,
    }
}

impl<'a> Designs<'a> {
    /// The names of the definition itself, where it is an interface. It takes no memory.
    pub fn own(&self) -> &Option<InterfaceNames>
        ensures { result.now ≡ self.now.own }
    {
        &self.own
    }

    /// What the interface ports of the definition are connected to. It takes no memory.
    pub fn faces(&self) -> &Table<PortFace>
        ensures { result.now ≡ self.now.faces }
    {
        &self.faces
    }

    /// The tokens of the modports that the ports of a header name and that their interfaces do not have, in the order of the text
    /// (IEEE 1800-2017, 25.5).
    ///
    /// # Errors
    /// For want of memory alone.
    pub fn unknown_modports(&self, alloc: Global, header: &Header) -> Result<Vec<u32>, NoMemory>
        ensures { IfOk result (λ found. found.items ≡ unknown_modports self.now.kinds self.now.words header.now) }
    {
        unknown_modports(alloc, &self.kinds, self.words, header)
    }

    /// Whether the interface of this name, where it is one, has a modport.
    fn has_modport_in(&self, interface: Option<&Name>, modport: &Name) -> bool
        ensures { result ≡ has_modport_in self.now.kinds (option_map (λ n. n.now) interface.entry) modport.now }
    {
        let Some(interface) = interface else {
            return false;
        };
        match names_in(&self.kinds, interface) {
            Some(names) => names.names().has_modport(modport),
            None => false,
        }
    }

    /// The interface of which something declared is an instance, where it is one.
    fn interface_of(&self, declared: &Declared) -> Option<&Name>
        ensures { option_map (λ n. n.now) result ≡ interface_of self.now declared.now }
    {
        if !is_instance(&declared.what) {
            return None;
        }
        match self.instantiations.last_before(declared.at.token) {
            Some(token) => self.interface_at(token),
            None => None,
        }
    }

    /// The name at a token, where it is that of an interface.
    fn interface_at(&self, token: u32) -> Option<&Name>
        ensures { option_map (λ n. n.now) result ≡ interface_at self.now token }
    {
        match name_at(self.words, token) {
            Some(name) => interface_if(kind_in(&self.kinds, name), name),
            None => None,
        }
    }
}

impl<'a> Interfaces for Designs<'a> {
    ghost use Rattle.sve_design_kinds.specs.Designs.{kind_named};

    ghost kinds = { λ d name. kind_named d name };

    fn kind(&self, name: &Name) -> Option<DesignKind> {
        kind_in(&self.kinds, name)
    }
}

impl<'a> Instances for Designs<'a> {
    ghost use Rattle.sve_design_kinds.specs.Designs.{interface_of, modport_of};

    ghost interfaces = { λ d declared. interface_of d declared };

    ghost modports = { λ d declared modport. modport_of d declared modport };

    fn interface(&self, declared: &Declared) -> Option<&Name> {
        self.interface_of(declared)
    }

    fn has_modport(&self, declared: &Declared, modport: &Name) -> bool {
        self.has_modport_in(self.interface_of(declared), modport)
    }
}

/// The names of a header and these instantiations.
fn all_names(alloc: Global, header: &Header, instantiations: &[u32]) -> Result<Vec<u32>, NoMemory>
    ensures { IfOk result (λ found. found.items ≡ header_names header.now ++ instantiations.now) }
{
    let mut found = Vec::new(alloc);
    add_header_names(header, &mut found)?;
    found.extend_from_slice(instantiations)?;
    Ok(found)
}

/// Asks what the names are that the ports of a header have in place of types, and those at these tokens at which it is instantiated behind the
/// header (IEEE 1800-2017, 3.13, 23.3.2 and 25.3): each is asked for once, in the order of the text, where the design has a definition of it. The
/// definition has these names itself, where it is an interface, and its interface ports are given this. It spends no fuel.
///
/// # Errors
/// As the object halts, or for want of memory.
pub fn designs_named<'a, W: Look>(
    alloc: Global,
    index: &Index,
    words: &'a [Word],
    header: &Header,
    instantiations: Vec<u32>,
    own: Option<InterfaceNames>,
    given: &[FaceGiven],
    world: &mut W,
    fuel: &Fuel,
) -> Result<Designs<'a>, Stop>
    requires { IsFuel fuel.now }
    ensures { Follows (record { tells = W.tells; keeps = W.keeps; halted = W.halted; stops = W.stops; asked = W.asked }) world.old world.new fuel.now fuel.now (designs_named index.now words.now header.now instantiations.items own given.now) result }
{
    let names = all_names(alloc, header, instantiations.as_slice())?;
    let mut kinds = Table::new(alloc);
    add_tokens(
        alloc,
        index,
        words,
        names.as_slice(),
        &mut kinds,
        world,
        fuel,
    )?;
    let faces = port_faces(alloc, &kinds, given)?;
    Ok(Designs {
        words,
        kinds,
        instantiations: Beginnings::at(instantiations),
        own,
        faces,
    })
}
