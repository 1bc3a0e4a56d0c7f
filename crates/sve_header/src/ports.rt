//! The ports of a header.
ghost use Rattle.std.specs.Prelude.{◌≡◌, IfOk, option_map, slice_get};
ghost use Rattle.sve_fault.specs.Counts.{IsFuel};
ghost use Rattle.sve_plan.specs.Follows.{Meters};
ghost use Rattle.sve_port.specs.Ports.{header_nodes, header_ports};
ghost use Rattle.sve_scoped.specs.Known.{told_in};
ghost use Rattle.sve_header.specs.Ports.{face_by, in_front, in_front_at, port_after, ports_behind, ports_in, ports_left, what_of, with_header_ports};

use crate::coming::{come_in, names_of_type, separator};
use std::alloc::Global;
use sve_bytes::{List, Name, NoMemory};
use sve_contents::Contents;
use sve_enumerated::Passed;
use sve_facts::Port;
use sve_fault::{Fuel, Halted};
use sve_port::{Interfaces, Listing, ports};
use sve_scope::{Face, FaceName, PortFace, What};
use sve_scoped::{Text, around};
use sve_table::Table;
use sve_tree::{Header, Port as WrittenPort, PortType, Ports, Word};
use sve_types::Ty;

/// What the ports of a header leave.
#[derive(Drop)]
pub struct HeaderPorts {
    /// The scope, and what is to be said of it.
    pub contents: Contents,
    /// The ports, in the order of the text.
    pub ports: List<Port>,
}

/// What an interface port of this name is connected to, and its own interface and modport where nothing is known of that.
fn face_by(faces: &Table<PortFace>, name: &Name, own: &FaceName) -> Result<Face, NoMemory>
    ensures { IfOk result (λ f. f ≡ face_by faces.now name.now own.now) }
{
    match faces.get(name) {
        Some(known) => known.face.copy(),
        None => Ok(Face {
            name: own.copy()?,
            names: None,
        }),
    }
}

/// What a port stands for within its module or interface.
fn what_of(faces: &Table<PortFace>, port: &Port) -> Result<What, NoMemory>
    ensures { IfOk result (λ w. w ≡ what_of faces.now port.now) }
{
    match &port.face {
        Some(own) => Ok(What::InterfacePort(face_by(faces, &port.name, own)?)),
        None => {
            let ty = port.ty.copy()?;
            if port.net {
                Ok(What::Net(ty))
            } else {
                Ok(What::Variable(ty))
            }
        }
    }
}

/// What stands in front of the name of a port: the names that its type declares, or an interface with a modport, which are no uses.
#[tactic(auto, unfolding(crate::specs::Ports::in_front))]
fn in_front(
    alloc: Global,
    words: &[Word],
    ty: &Ty,
    passed: Passed,
    written: &PortType,
) -> Result<Passed, NoMemory>
    ensures { IfOk result (λ p. p ≡ in_front words.now ty.now passed written.now) }
{
    match written {
        PortType::Data { data_type } => names_of_type(alloc, words, Some(ty), passed, data_type),
        PortType::Interface {
            interface,
            modport,
            ..
        } => {
            let Passed { contents, at: _ } = passed.to(words, *interface)?;
            Ok(Passed {
                contents,
                at: *modport,
            })
        }
    }
}

/// What stands in front of the name of a port, where it is written.
fn in_front_at(
    alloc: Global,
    words: &[Word],
    ty: &Ty,
    passed: Passed,
    written: Option<&WrittenPort>,
) -> Result<Passed, NoMemory>
    ensures { IfOk result (λ p. p ≡ in_front_at words.now ty.now passed (option_map (λ w. w.now) written.entry)) }
{
    match written {
        Some(written) => in_front(alloc, words, ty, passed, &written.port_type),
        None => Ok(passed),
    }
}

/// What is written of the port at a place of a list.
fn written_at(list: &Ports, place: usize) -> Option<&WrittenPort>
    ensures { option_map (λ w. w.now) result ≡ slice_get list.now.ports.items.items place }
{
    list.ports.as_slice().get(place)
}

/// The port at a place of the list of a header.
#[tactic(auto, unfolding(crate::specs::Ports::port_after))]
fn port_after(
    alloc: Global,
    words: &[Word],
    faces: &Table<PortFace>,
    list: &Ports,
    place: usize,
    passed: Passed,
    port: &Port,
) -> Result<Passed, NoMemory>
    ensures { IfOk result (λ p. p ≡ port_after words.now faces.now list.now place passed port.now) }
{
    let written = written_at(list, place);
    let passed = in_front_at(alloc, words, port.ty.ty(), passed, written)?;
    let what = what_of(faces, port)?;
    let from = separator(list.ports.separators.as_slice(), list.closing, place);
    come_in(words, passed, port.token, what, from)
}

/// The ports of a list, one after another.
#[tactic(auto, using(crate::proofs::Loops::ports_step, crate::proofs::Loops::ports_end))]
fn all_ports(
    alloc: Global,
    words: &[Word],
    faces: &Table<PortFace>,
    list: &Ports,
    passed: Passed,
    ports: &[Port],
) -> Result<Passed, NoMemory>
    ensures { IfOk result (λ p. p ≡ ports_behind words.now faces.now list.now 0 passed ports.now) }
{
    let mut passed = passed;
    'ports: for (place, port) in ports.iter().enumerate() {
        passed = port_after(alloc, words, faces, list, place, passed, port)?;
    }
    Ok(passed)
}

/// The ports of a header, where it has a list of them.
fn ports_in(
    alloc: Global,
    words: &[Word],
    faces: &Table<PortFace>,
    contents: Contents,
    list: &Option<Ports>,
    ports: &[Port],
) -> Result<Contents, NoMemory>
    ensures { IfOk result (λ c. c ≡ ports_in words.now faces.now contents list.now ports.now) }
{
    let Some(list) = list else {
        return Ok(contents);
    };
    let at = list.opening;
    let passed = Passed { contents, at };
    let Passed { contents, at: _ } = all_ports(alloc, words, faces, list, passed, ports)?;
    Ok(contents)
}

/// What is found of ports, and what is said of them, in the scope of their header.
fn ports_left(
    alloc: Global,
    words: &[Word],
    faces: &Table<PortFace>,
    contents: Contents,
    header: &Header,
    listing: Listing,
) -> Result<HeaderPorts, NoMemory>
    ensures { IfOk result (λ h. h ≡ ports_left words.now faces.now contents header.now listing) }
{
    let Listing { ports, notes } = listing;
    let contents = contents.with_notes(notes)?;
    let contents = ports_in(alloc, words, faces, contents, &header.ports, ports.items())?;
    Ok(HeaderPorts { contents, ports })
}

/// What the ports of a header are, where its parameters are known.
fn listed_in<I: Interfaces>(
    alloc: Global,
    text: Text<'_>,
    interfaces: &I,
    contents: &Contents,
    header: &Header,
    fuel: &mut Fuel,
) -> Result<Listing, Halted>
    requires { IsFuel fuel.old }
    ensures { Meters fuel.old fuel.new (header_nodes (told_in text.entry.packages.now text.entry.words.now contents.now) (I.kinds interfaces.now) header.now, header_ports (told_in text.entry.packages.now text.entry.words.now contents.now) (I.kinds interfaces.now) header.now) result }
{
    let env = around(alloc, text, contents);
    ports(alloc, header, interfaces, &env, fuel)
}

/// What the ports of a header leave (IEEE 1800-2017, 23.2.2 and 25.3): each as a net, a variable or an interface port of its type, seen
/// from the token behind it on; and first the names that its type declares. An interface port is what the faces say of its name, and of
/// one of which they say nothing its own interface and modport are known alone. The nodes of types and dimensions are counted.
///
/// # Errors
/// `Over` exactly where the nodes pass the most that may be evaluated, and `NoMemory`.
pub fn with_header_ports<I: Interfaces>(
    alloc: Global,
    text: Text<'_>,
    interfaces: &I,
    faces: &Table<PortFace>,
    contents: Contents,
    header: &Header,
    fuel: &mut Fuel,
) -> Result<HeaderPorts, Halted>
    requires { IsFuel fuel.old }
    ensures { Meters fuel.old fuel.new (with_header_ports (told_in text.entry.packages.now text.entry.words.now) text.entry.words.now faces.now (I.kinds interfaces.now) contents header.now) result }
{
    let listing = listed_in(alloc, text, interfaces, &contents, header, fuel)?;
    Ok(ports_left(alloc, text.words, faces, contents, header, listing)?)
}
