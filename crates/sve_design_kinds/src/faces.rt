//! What the interface ports of a definition are connected to, and the modports in its header that are not there.
ghost use Rattle.std.specs.Prelude.{◌≡◌, ◌++◌, IfOk, OnOk, option_map};
ghost use Rattle.std.specs.List.{flat_map};
ghost use Rattle.sve_known.specs.Naming.{name_at};
ghost use Rattle.sve_design_kinds.specs.Faces.{fitting, has_face, is_missing, modport_named, names_at, names_in, names_of, port_face, port_faces, port_modports, port_type_modports, unknown_modports, with_face};

use crate::kinds::KnownDesign;
use std::alloc::Global;
use sve_bytes::{Name, NoMemory};
use sve_known::name_at;
use sve_scope::{Face, FaceName, InterfaceNames, PortFace, SharedInterface};
use sve_spec::FaceGiven;
use sve_table::Table;
use sve_tree::{Header, Port, PortType, Word};

/// The names of what is known.
fn names_of(known: &KnownDesign) -> Option<&SharedInterface>
    ensures { option_map (λ n. n.now) result ≡ names_of known.now }
{
    match &known.names {
        Some(names) => Some(names),
        None => None,
    }
}

/// The names of the interface of a name, where it is one.
pub(crate) fn names_in<'a>(
    kinds: &'a Table<KnownDesign>,
    name: &Name,
) -> Option<&'a SharedInterface>
    ensures { option_map (λ n. n.now) result ≡ names_in kinds.now name.now }
{
    match kinds.get(name) {
        Some(known) => names_of(known),
        None => None,
    }
}

/// Whether an interface can be given through this modport, or by itself where there is none.
fn has_face(names: &InterfaceNames, modport: &Option<Name>) -> bool
    ensures { result ≡ has_face names.now modport.now }
{
    match modport {
        Some(modport) => names.has_modport(modport),
        None => true,
    }
}

/// The names of an interface, where it can be given so.
fn fitting(
    names: Option<&SharedInterface>,
    modport: &Option<Name>,
) -> Result<Option<SharedInterface>, NoMemory>
    ensures { IfOk result (λ f. f ≡ fitting (option_map (λ n. n.now) names.entry) modport.now) }
{
    let Some(names) = names else {
        return Ok(None);
    };
    if has_face(names.names(), modport) {
        Ok(Some(names.copy()?))
    } else {
        Ok(None)
    }
}

/// What a port is connected to that is given this.
fn port_face(kinds: &Table<KnownDesign>, given: &FaceGiven) -> Result<PortFace, NoMemory>
    ensures { IfOk result (λ f. f ≡ port_face kinds.now given.now) }
{
    let FaceGiven {
        port,
        interface,
        modport,
    } = given.copy()?;
    let names = fitting(names_in(kinds, &interface), &modport)?;
    let name = FaceName { interface, modport };
    Ok(PortFace {
        port,
        face: Face { name, names },
    })
}

/// Faces, and one more.
fn with_face(
    kinds: &Table<KnownDesign>,
    faces: Table<PortFace>,
    given: &FaceGiven,
) -> Result<Table<PortFace>, NoMemory>
    ensures { IfOk result (λ all. all ≡ with_face kinds.now faces given.now) }
{
    let mut faces = faces;
    faces.add(port_face(kinds, given)?)?;
    Ok(faces)
}

/// What interface ports are connected to that are given these (IEEE 1800-2017, 25.3 and 25.5).
pub(crate) fn port_faces(
    alloc: Global,
    kinds: &Table<KnownDesign>,
    given: &[FaceGiven],
) -> Result<Table<PortFace>, NoMemory>
    ensures { IfOk result (λ faces. faces ≡ port_faces kinds.now given.now) }
{
    let mut faces = Table::new(alloc);
    'given: for one in given {
        faces = with_face(kinds, faces, one)?;
    }
    Ok(faces)
}

/// The names of the interface whose name is at a token.
fn names_at<'a>(
    kinds: &'a Table<KnownDesign>,
    words: &[Word],
    token: u32,
) -> Option<&'a SharedInterface>
    ensures { option_map (λ n. n.now) result ≡ names_at kinds.now words.now token }
{
    match name_at(words, token) {
        Some(name) => names_in(kinds, name),
        None => None,
    }
}

/// Whether an interface has a modport of this name, or none is named.
fn modport_named(names: &SharedInterface, modport: Option<&Name>) -> bool
    ensures { result ≡ modport_named names.now (option_map (λ n. n.now) modport.entry) }
{
    match modport {
        Some(modport) => names.names().has_modport(modport),
        None => true,
    }
}

/// Whether the name at a token is that of no modport of an interface, where it is known to be one.
fn is_missing(names: Option<&SharedInterface>, words: &[Word], modport: u32) -> bool
    ensures { result ≡ is_missing (option_map (λ n. n.now) names.entry) words.now modport }
{
    match names {
        Some(names) => !modport_named(names, name_at(words, modport)),
        None => false,
    }
}

/// Adds the modport that a port names, where it is not there.
fn in_port_type(
    kinds: &Table<KnownDesign>,
    words: &[Word],
    port_type: &PortType,
    found: &mut Vec<u32>,
) -> Result<(), NoMemory>
    ensures { OnOk result (found.new.items ≡ found.old.items ++ port_type_modports kinds.now words.now port_type.now) }
{
    match port_type {
        PortType::Data { .. } => Ok(()),
        PortType::Interface {
            interface,
            modport,
            ..
        } => {
            if is_missing(names_at(kinds, words, *interface), words, *modport) {
                found.push(*modport)?;
            }
            Ok(())
        }
    }
}

/// Adds the modports that ports name and that are not there.
fn in_ports(
    kinds: &Table<KnownDesign>,
    words: &[Word],
    ports: &[Port],
    found: &mut Vec<u32>,
) -> Result<(), NoMemory>
    ensures { OnOk result (found.new.items ≡ found.old.items ++ flat_map (port_modports kinds.now words.now) ports.now) }
{
    for port in ports {
        in_port_type(kinds, words, &port.port_type, found)?;
    }
    Ok(())
}

/// The tokens of the modports that the ports of a header name and that their interfaces do not have.
pub(crate) fn unknown_modports(
    alloc: Global,
    kinds: &Table<KnownDesign>,
    words: &[Word],
    header: &Header,
) -> Result<Vec<u32>, NoMemory>
    ensures { IfOk result (λ found. found.items ≡ unknown_modports kinds.now words.now header.now) }
{
    let mut found = Vec::new(alloc);
    if let Some(list) = &header.ports {
        in_ports(kinds, words, list.ports.as_slice(), &mut found)?;
    }
    Ok(found)
}
