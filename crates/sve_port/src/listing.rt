ghost use Rattle.std.specs.Prelude.{◌≡◌, ◌++◌, IfOk};
ghost use Rattle.sve_fault.specs.Counts.{Counts, IsFuel};
ghost use Rattle.sve_port.specs.Ports.{header_nodes, header_ports, nodes_of_ports, port_named, port_nodes, ports_in, with_port, with_ports};

use crate::heading::heading_of;
use crate::interfaces::Interfaces;
use crate::manner::{Manner, first_manner};
use crate::typed::{Mannered, Shaped, manner_after, shape};
use std::alloc::Global;
use sve_bytes::{List, NoMemory};
use sve_diag::Note;
use sve_env::Env;
use sve_facts::Port;
use sve_fault::{Fuel, Halted, argument};
use sve_scope::{FaceName, SharedType};
use sve_tree::{Header, Port as WrittenPort, Ports};

/// The ports of a header, and what there is to say of them.
#[derive(Drop)]
pub struct Listing {
    /// The ports, in the order of the text.
    pub ports: List<Port>,
    /// What there is to say, port after port: of each what its type and its dimensions say, in the order of the text, and behind it
    /// that no port may be of that type.
    pub notes: List<Note>,
}

/// The ports so far, and what the last of them hands on.
#[derive(Drop)]
pub(crate) struct Listed {
    pub(crate) before: Manner,
    pub(crate) ports: List<Port>,
    pub(crate) notes: List<Note>,
}

/// Notes, and behind them others.
fn joined(notes: List<Note>, more: List<Note>) -> Result<List<Note>, NoMemory>
    ensures { IfOk result (λ l. l ≡ notes ++ more) }
{
    let mut notes = notes.into_vec();
    notes.append(&mut more.into_vec())?;
    Ok(List::of(notes))
}

/// The name of an interface port's interface, where it is one.
fn face_of(face: &Option<FaceName>) -> Result<Option<FaceName>, NoMemory>
    ensures { IfOk result (λ f. f ≡ face.now) }
{
    match face {
        Some(face) => Ok(Some(face.copy()?)),
        None => Ok(None),
    }
}

/// Ports, and behind them one more at this token, where it has a name.
fn port_named<E: Env>(
    alloc: Global,
    env: &E,
    ports: List<Port>,
    manner: &Manner,
    ty: SharedType,
    token: u32,
) -> Result<List<Port>, NoMemory>
    ensures { IfOk result (λ l. l ≡ port_named (E.told env.now) ports manner.now ty token) }
{
    let Some(name) = argument(alloc, env.text(token))? else {
        return Ok(ports);
    };
    let mut ports = ports.into_vec();
    ports.push(Port {
        name,
        direction: manner.direction,
        net: manner.net,
        ty,
        face: face_of(&manner.face)?,
        token,
    })?;
    Ok(List::of(ports))
}

/// A port more.
fn with_port<E: Env, I: Interfaces>(
    alloc: Global,
    interfaces: &I,
    listed: Listed,
    port: &WrittenPort,
    env: &E,
    fuel: &mut Fuel,
) -> Result<Listed, Halted>
    requires { IsFuel fuel.old }
    ensures meaning { IfOk result (λ l. l ≡ with_port (E.told env.now) (I.kinds interfaces.now) listed port.now) }
    ensures count { Counts result fuel.old fuel.new (port_nodes (E.told env.now) (I.kinds interfaces.now) port.now) }
{
    let Listed {
        before,
        ports,
        notes,
    } = listed;
    let heading = heading_of(alloc, env, interfaces, port)?;
    let Mannered {
        manner,
        notes: said,
    } = manner_after(alloc, env, before, port, heading, fuel)?;
    let notes = joined(notes, said)?;
    let Shaped { ty, notes: said } = shape(alloc, env, &manner, &port.declarator, fuel)?;
    let notes = joined(notes, said)?;
    let ports = port_named(alloc, env, ports, &manner, ty, port.name())?;
    Ok(Listed {
        before: manner,
        ports,
        notes,
    })
}

/// Ports, one after another.
#[tactic(auto, using(crate::proofs::Rows::port_listed, crate::proofs::Rows::ports_listed, crate::proofs::Rows::port_counted, crate::proofs::Rows::ports_counted))]
fn with_ports<E: Env, I: Interfaces>(
    alloc: Global,
    interfaces: &I,
    listed: Listed,
    written: &[WrittenPort],
    env: &E,
    fuel: &mut Fuel,
) -> Result<Listed, Halted>
    requires { IsFuel fuel.old }
    ensures meaning { IfOk result (λ l. l ≡ with_ports (E.told env.now) (I.kinds interfaces.now) listed written.now) }
    ensures count { Counts result fuel.old fuel.new (nodes_of_ports (E.told env.now) (I.kinds interfaces.now) written.now) }
{
    let mut listed = listed;
    'ports: for port in written {
        listed = with_port(alloc, interfaces, listed, port, env, fuel)?;
    }
    Ok(listed)
}

/// The ports that are written in a header.
fn ports_in(ports: &Option<Ports>) -> &[WrittenPort]
    ensures { result.now ≡ ports_in ports.now }
{
    match ports {
        Some(list) => list.ports.as_slice(),
        None => &[],
    }
}

/// The ports of a header, and what there is to say of them (IEEE 1800-2017, 23.2.2.3 and 25.3). On a first port with something said a
/// direction that is not said is inout, and a type that is not said is one bit of four states; where nothing is said of a later port it
/// is as the one before. An input and an inout without a written kind is a net, and so is an output for which no type is written. It
/// says what is wrong with a written type or dimension, where the name in front of a modport is that of a module (N11) or of nothing
/// (N09), and which port is of a type that no port may have (E06). The nodes of types and dimensions are counted; one that is taken
/// from the port before is not evaluated again. It is Over exactly where they pass the most.
pub fn ports<E: Env, I: Interfaces>(
    alloc: Global,
    header: &Header,
    interfaces: &I,
    env: &E,
    fuel: &mut Fuel,
) -> Result<Listing, Halted>
    requires { IsFuel fuel.old }
    ensures meaning { IfOk result (λ l. l ≡ header_ports (E.told env.now) (I.kinds interfaces.now) header.now) }
    ensures count { Counts result fuel.old fuel.new (header_nodes (E.told env.now) (I.kinds interfaces.now) header.now) }
{
    let listed = Listed {
        before: first_manner(alloc)?,
        ports: List::of(Vec::new(alloc)),
        notes: List::of(Vec::new(alloc)),
    };
    let written = ports_in(&header.ports);
    let Listed {
        before: _,
        ports,
        notes,
    } = with_ports(alloc, interfaces, listed, written, env, fuel)?;
    Ok(Listing { ports, notes })
}
