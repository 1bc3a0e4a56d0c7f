ghost use Rattle.std.specs.Prelude.{◌≡◌, IfOk};
ghost use Rattle.sve_connect.specs.Connections.{behind, by_star, connected, ended, is_empty_argument, is_nothing, left_free, link_at, missing, paired, ports_ended, said, with_arguments, with_port};

use crate::fitting::misfit;
use crate::linked::{Link, Linking, Star, no_linking};
use crate::linking::with_argument;
use crate::ports::{PortName, named_ports};
use crate::{Around, Net};
use std::alloc::Global;
use sve_bytes::{List, Name, NoMemory};
use sve_diag::{Code, Note};
use sve_facts::Port;
use sve_table::Table;
use sve_tree::{Arg, ArgumentList};

/// A port and the argument that connects it.
#[derive(Clone, Copy, PartialEq, Eq)]
pub struct Pair {
    /// The place of the port among the ports, from 0.
    pub port: usize,
    /// The place of the argument in its list, from 0; for a port that `.*` connects that of the `.*`.
    pub argument: usize,
}

/// How the ports of an instance are connected.
#[derive(Drop)]
pub struct Connected {
    /// The ports that are connected as they may be, in their order.
    pub pairs: List<Pair>,
    /// The ports that are connected to nothing, in their order.
    pub unconnected: List<Name>,
    /// The uses of names that declare nets (IEEE 1800-2017, 6.10), in the order of the text: each use, whatever the default net type.
    pub nets: List<Net>,
    /// What is to be said: of the arguments in their order, then of the ports that they leave.
    pub notes: List<Note>,
}

/// The ports so far, behind the arguments.
#[derive(Drop)]
pub(crate) struct Ending {
    pub(crate) pairs: List<Pair>,
    pub(crate) unconnected: List<Name>,
    pub(crate) notes: List<Note>,
}

/// The token behind an argument: the comma, or the closing parenthesis.
fn behind(list: &ArgumentList, place: usize) -> u32
    ensures { result ≡ behind list.now.arguments.separators.items list.now.closing place }
{
    match list.arguments.separators.get(place) {
        Some(comma) => *comma,
        None => list.closing,
    }
}

/// Arguments, one after another.
#[tactic(auto, using(crate::proofs::Rows::argument_taken, crate::proofs::Rows::arguments_taken))]
fn with_arguments<A: Around>(
    around: &A,
    ports: &[Port],
    names: &Table<PortName>,
    linking: Linking,
    list: &ArgumentList,
) -> Result<Linking, NoMemory>
    ensures { IfOk result (λ l. l ≡ with_arguments (A.seen around.now) ports.now names.now list.now.arguments.separators.items list.now.closing 0 list.now.arguments.items.items linking) }
{
    let mut linking = linking;
    'arguments: for (place, argument) in list.arguments.as_slice().iter().enumerate() {
        let behind = behind(list, place);
        linking = with_argument(around, ports, names, linking, place, behind, argument)?;
    }
    Ok(linking)
}

/// A pair more.
fn paired(ending: Ending, port: usize, argument: usize) -> Result<Ending, NoMemory>
    ensures { IfOk result (λ e. e ≡ paired ending port argument) }
{
    let mut ending = ending;
    let mut pairs = ending.pairs.into_vec();
    pairs.push(Pair { port, argument })?;
    ending.pairs = List::of(pairs);
    Ok(ending)
}

/// A port more that is connected to nothing.
fn left_free(ending: Ending, name: &Name) -> Result<Ending, NoMemory>
    ensures { IfOk result (λ e. e ≡ left_free ending name.now) }
{
    let mut ending = ending;
    let mut unconnected = ending.unconnected.into_vec();
    unconnected.push(name.copy()?)?;
    ending.unconnected = List::of(unconnected);
    Ok(ending)
}

/// A note more, of a port, at a token of the chunk of the instance.
fn said<A: Around>(
    around: &A,
    ending: Ending,
    token: u32,
    code: Code,
    name: &Name,
) -> Result<Ending, NoMemory>
    ensures { IfOk result (λ e. e ≡ said (A.seen around.now) ending token code name.now) }
{
    let mut ending = ending;
    let mut notes = ending.notes.into_vec();
    notes.push(Note {
        file: around.file().copy()?,
        chunk: around.chunk(),
        token,
        code,
        arg: Some(name.copy()?),
    })?;
    ending.notes = List::of(notes);
    Ok(ending)
}

/// A port more that is connected to nothing: an interface port must be connected, else this is said at the instance (E10).
fn missing<A: Around>(around: &A, ending: Ending, port: &Port, at: u32) -> Result<Ending, NoMemory>
    ensures { IfOk result (λ e. e ≡ missing (A.seen around.now) ending port.now at) }
{
    let ending = left_free(ending, &port.name)?;
    match &port.face {
        Some(_) => said(around, ending, at, Code::E10, &port.name),
        None => Ok(ending),
    }
}

/// A port more that `.*` connects to what its name stands for, where that fits; else it is said (E09, E10), and where there is nothing
/// to be connected the port is connected to nothing.
fn by_star<A: Around>(
    around: &A,
    ending: Ending,
    port: &Port,
    place: usize,
    star: Star,
) -> Result<Ending, NoMemory>
    ensures { IfOk result (λ e. e ≡ by_star (A.seen around.now) ending port.now place star) }
{
    match misfit(port, around.thing(&port.name)) {
        None => paired(ending, place, star.place),
        Some(code) => {
            let ending = said(around, ending, star.token, code, &port.name)?;
            if matches!(code, Code::E09) {
                left_free(ending, &port.name)
            } else {
                Ok(ending)
            }
        }
    }
}

/// A port more, by what the arguments connect it to.
fn with_port<A: Around>(
    around: &A,
    ending: Ending,
    port: &Port,
    place: usize,
    link: Link,
    star: Option<Star>,
    at: u32,
) -> Result<Ending, NoMemory>
    ensures { IfOk result (λ e. e ≡ with_port (A.seen around.now) ending port.now place link star at) }
{
    match link {
        Link::To(argument) => paired(ending, place, argument),
        Link::Wrong => Ok(ending),
        Link::Nothing => missing(around, ending, port, at),
        Link::Free => match star {
            Some(star) => by_star(around, ending, port, place, star),
            None => missing(around, ending, port, at),
        },
    }
}

/// What a port is connected to.
fn link_at(links: &[Link], place: usize) -> Link
    ensures { result ≡ link_at links.now place }
{
    match links.get(place) {
        Some(link) => *link,
        None => Link::Free,
    }
}

/// Ports, one after another.
#[tactic(auto, using(crate::proofs::Rows::port_ended, crate::proofs::Rows::all_ended))]
fn with_ports<A: Around>(
    around: &A,
    ending: Ending,
    ports: &[Port],
    links: &[Link],
    star: Option<Star>,
    at: u32,
) -> Result<Ending, NoMemory>
    ensures { IfOk result (λ e. e ≡ ports_ended (A.seen around.now) links.now star at 0 ports.now ending) }
{
    let mut ending = ending;
    'ports: for (place, port) in ports.iter().enumerate() {
        let link = link_at(links, place);
        ending = with_port(around, ending, port, place, link, star, at)?;
    }
    Ok(ending)
}

/// What is known of the ports behind the arguments.
fn ended<A: Around>(
    alloc: Global,
    around: &A,
    ports: &[Port],
    linking: Linking,
    at: u32,
) -> Result<Connected, NoMemory>
    ensures { IfOk result (λ c. c ≡ ended (A.seen around.now) ports.now linking at) }
{
    let Linking {
        links,
        form: _,
        next: _,
        star,
        nets,
        notes,
    } = linking;
    let ending = Ending {
        pairs: List::of(Vec::new(alloc)),
        unconnected: List::of(Vec::new(alloc)),
        notes,
    };
    let Ending {
        pairs,
        unconnected,
        notes,
    } = with_ports(around, ending, ports, links.items(), star, at)?;
    Ok(Connected {
        pairs,
        unconnected,
        nets,
        notes,
    })
}

/// Whether an argument is nothing.
fn is_empty_argument(argument: &Arg) -> bool
    ensures { result ≡ is_empty_argument argument.now }
{
    matches!(argument, Arg::Empty)
}

/// Whether a list is `()`: its one argument is nothing.
fn is_nothing(arguments: &[Arg]) -> bool
    ensures { result ≡ is_nothing arguments.now }
{
    match arguments {
        [argument] => is_empty_argument(argument),
        _ => false,
    }
}

/// How the arguments of an instance connect its ports (IEEE 1800-2017, 23.3.2, 25.3 and 6.10): by order or by name, `.n` and `.*` by
/// what the port's own name stands for around the instance. It says which argument names a port that is not there or that was named
/// before (E07), is one too many, or is by order where the first is by name or by name where the first is by order, and a second `.*`
/// (E08); which port's own name stands for nothing of an equivalent type (E09); and which interface port is connected to something
/// else than its interface, or to nothing (E10). What is said of a port that is connected to nothing stands at this token, that of
/// the name of the instance.
///
/// # Errors
/// For want of memory alone.
pub fn connect<A: Around>(
    alloc: Global,
    ports: &[Port],
    list: &ArgumentList,
    around: &A,
    at: u32,
) -> Result<Connected, NoMemory>
    ensures { IfOk result (λ c. c ≡ connected (A.seen around.now) ports.now list.now.arguments.separators.items list.now.closing list.now.arguments.items.items at) }
{
    let linking = no_linking(alloc, ports)?;
    if is_nothing(list.arguments.as_slice()) {
        return ended(alloc, around, ports, linking, at);
    }
    let names = named_ports(alloc, ports)?;
    let linking = with_arguments(around, ports, &names, linking, list)?;
    ended(alloc, around, ports, linking, at)
}
