//! What the connections of an instance give its interface ports, and the names with one member that stand in them.
ghost use Rattle.std.specs.Prelude.{◌≡◌, IfOk, Some, option_map, slice_get};
ghost use Rattle.sve_known.specs.Naming.{name_at};
ghost use Rattle.sve_scope.specs.Lookup.{meaning_of};
ghost use Rattle.sve_child.specs.Faces.{and_face, declared_by, declared_found, face_given, faces_given, given_in, given_named, given_through, handed_on, has_lent, lender, lends, lone_used, member_in, modport_fault, modport_or, modport_said, names_have, pair_face, pair_said, pairs_said, port_face, port_said, referred, unknown_modport, unless_lent, with_pair_face};

use crate::arguments::argument_value;
use crate::connecting::{lone, names_in_value};
use std::alloc::Global;
use sve_around::{Instances, member_behind, reference_of};
use sve_bytes::{List, Name, NoMemory};
use sve_connect::Pair;
use sve_contents::Contents;
use sve_diag::Code;
use sve_facts::Port;
use sve_fault::Fault;
use sve_known::{Wrong, name_at};
use sve_scope::{Declared, FaceName, Found, SharedInterface, What, lookup};
use sve_scoped::Text;
use sve_spec::FaceGiven;
use sve_tree::{Arg, Expr, Instance, Word};

/// What is declared where lookup finds it.
fn declared_found(found: Found<'_>) -> Option<&Declared>
    ensures { option_map (λ d. d.now) result ≡ declared_found (meaning_of found.entry) }
{
    match found {
        Found::Local(declared) => Some(declared),
        Found::Imported(_, _, _) => None,
        Found::Two(_, _) => None,
        Found::None => None,
    }
}

/// What a name declares that is used at a token.
fn declared_by<'a>(contents: &'a Contents, name: &Name, token: u32) -> Option<&'a Declared>
    ensures { option_map (λ d. d.now) result ≡ declared_by contents.now (Some name.now) token }
{
    declared_found(lookup(&contents.scope, &contents.around, name, token))
}

/// What the name at a token of a reference declares.
fn referred<'a>(words: &[Word], contents: &'a Contents, token: Option<u32>) -> Option<&'a Declared>
    ensures { option_map (λ d. d.now) result ≡ referred words.now contents.now token }
{
    let token = token?;
    let name = name_at(words, token)?;
    declared_by(contents, name, token)
}

/// What is declared by the name to which a connection refers: that of an expression, or else the port's own name, which is sought at the
/// token of the instance.
fn lender<'a>(
    words: &[Word],
    contents: &'a Contents,
    at: u32,
    port: &Name,
    value: Option<&Expr>,
) -> Option<&'a Declared>
    ensures { option_map (λ d. d.now) result ≡ lender words.now contents.now at port.now (option_map (λ e. e.now) value.entry) }
{
    match value {
        Some(value) => referred(words, contents, reference_of(value)),
        None => declared_by(contents, port, at),
    }
}

/// The member by itself behind the name, by its token, where an expression has one.
fn member_in(value: Option<&Expr>) -> Option<u32>
    ensures { result ≡ member_in (option_map (λ e. e.now) value.entry) }
{
    match value {
        Some(value) => member_behind(value),
        None => None,
    }
}

/// Whether something gives an interface: an instance, or an interface port that is connected to something that fits.
fn lends(what: &What) -> bool
    ensures { result ≡ lends what.now }
{
    match what {
        What::Instance => true,
        What::InterfacePort(face) => face.names.is_some(),
        _ => false,
    }
}

/// The modport through which an interface port is given, which it hands on.
fn handed_on(what: &What) -> Result<Option<Name>, NoMemory>
    ensures { IfOk result (λ m. m ≡ handed_on what.now) }
{
    match what {
        What::InterfacePort(face) => match &face.name.modport {
            Some(modport) => Ok(Some(modport.copy()?)),
            None => Ok(None),
        },
        _ => Ok(None),
    }
}

/// Whether an interface that is known has a modport of this name.
fn names_have(names: &Option<SharedInterface>, modport: &Name) -> bool
    ensures { result ≡ names_have names.now modport.now }
{
    match names {
        Some(names) => names.names().has_modport(modport),
        None => false,
    }
}

/// Whether the interface that something declared gives has a modport of this name.
fn has_lent<I: Instances>(instances: &I, declared: &Declared, modport: &Name) -> bool
    ensures { result ≡ has_lent (I.modports instances.now) declared.now modport.now }
{
    match &declared.what {
        What::Instance => instances.has_modport(declared, modport),
        What::InterfacePort(face) => names_have(&face.names, modport),
        _ => false,
    }
}

/// The first modport, or else the other.
fn modport_or(own: &Option<Name>, other: Option<Name>) -> Result<Option<Name>, NoMemory>
    ensures { IfOk result (λ m. m ≡ modport_or own.now other) }
{
    match own {
        Some(own) => Ok(Some(own.copy()?)),
        None => Ok(other),
    }
}

/// What a port is given through its own modport, or else through this one.
fn given_through(port: &Name, own: &FaceName, modport: Option<Name>) -> Result<FaceGiven, NoMemory>
    ensures { IfOk result (λ g. g ≡ given_through port.now own.now modport) }
{
    Ok(FaceGiven {
        port: port.copy()?,
        interface: own.interface.copy()?,
        modport: modport_or(&own.modport, modport)?,
    })
}

/// What a port is given by something declared with a modport behind it.
fn given_named<I: Instances>(
    instances: &I,
    port: &Name,
    own: &FaceName,
    declared: &Declared,
    modport: Option<&Name>,
) -> Result<Option<FaceGiven>, NoMemory>
    ensures { IfOk result (λ g. g ≡ given_named (I.modports instances.now) port.now own.now declared.now (option_map (λ n. n.now) modport.entry)) }
{
    let Some(modport) = modport else {
        return Ok(None);
    };
    if !has_lent(instances, declared, modport) {
        return Ok(None);
    }
    Ok(Some(given_through(port, own, Some(modport.copy()?))?))
}

/// What a port is given by something declared that gives an interface, perhaps with a modport at a token behind it.
fn given_in<I: Instances>(
    words: &[Word],
    instances: &I,
    port: &Name,
    own: &FaceName,
    declared: &Declared,
    member: Option<u32>,
) -> Result<Option<FaceGiven>, NoMemory>
    ensures { IfOk result (λ g. g ≡ given_in words.now (I.modports instances.now) port.now own.now declared.now member) }
{
    match member {
        Some(token) => given_named(instances, port, own, declared, name_at(words, token)),
        None => Ok(Some(given_through(port, own, handed_on(&declared.what)?)?)),
    }
}

/// What a port is given by something declared.
fn face_given<I: Instances>(
    words: &[Word],
    instances: &I,
    port: &Name,
    own: &FaceName,
    declared: &Declared,
    member: Option<u32>,
) -> Result<Option<FaceGiven>, NoMemory>
    ensures { IfOk result (λ g. g ≡ face_given words.now (I.modports instances.now) port.now own.now declared.now member) }
{
    if !lends(&declared.what) {
        return Ok(None);
    }
    given_in(words, instances, port, own, declared, member)
}

/// What a port is given by an argument, where it is an interface port.
fn port_face<I: Instances>(
    words: &[Word],
    contents: &Contents,
    instances: &I,
    at: u32,
    port: &Port,
    argument: &Arg,
) -> Result<Option<FaceGiven>, NoMemory>
    ensures { IfOk result (λ g. g ≡ port_face words.now (I.modports instances.now) contents.now at port.now argument.now) }
{
    let value = argument_value(argument);
    let Some(own) = &port.face else {
        return Ok(None);
    };
    let Some(declared) = lender(words, contents, at, &port.name, value) else {
        return Ok(None);
    };
    face_given(
        words,
        instances,
        &port.name,
        own,
        declared,
        member_in(value),
    )
}

/// That a modport is not there, where it is not.
fn unless_lent(lent: bool, token: u32, modport: &Name) -> Result<Option<Fault>, NoMemory>
    ensures { IfOk result (λ f. f ≡ unless_lent lent token modport.now) }
{
    if lent {
        return Ok(None);
    }
    let unknown = Wrong {
        token,
        code: Code::E11,
        name: Some(modport),
    };
    Ok(Some(unknown.fault()?))
}

/// What is wrong with the modport at a token behind something declared.
fn modport_fault<I: Instances>(
    words: &[Word],
    instances: &I,
    declared: &Declared,
    token: u32,
) -> Result<Option<Fault>, NoMemory>
    ensures { IfOk result (λ f. f ≡ modport_fault (I.modports instances.now) declared.now token (name_at words.now token)) }
{
    match name_at(words, token) {
        Some(modport) => unless_lent(has_lent(instances, declared, modport), token, modport),
        None => Ok(None),
    }
}

/// What is wrong with the modport at a token behind something declared, where there is one and that gives an interface.
fn unknown_modport<I: Instances>(
    words: &[Word],
    instances: &I,
    declared: &Declared,
    member: Option<u32>,
) -> Result<Option<Fault>, NoMemory>
    ensures { IfOk result (λ f. f ≡ unknown_modport words.now (I.modports instances.now) declared.now member) }
{
    let Some(token) = member else {
        return Ok(None);
    };
    if !lends(&declared.what) {
        return Ok(None);
    }
    modport_fault(words, instances, declared, token)
}

/// The scope behind the connection of an interface port to an argument, where it is said of its modport that it is not there.
fn modport_said<I: Instances>(
    text: Text<'_>,
    contents: Contents,
    instances: &I,
    at: u32,
    port: &Name,
    value: Option<&Expr>,
) -> Result<Contents, NoMemory>
    ensures { IfOk result (λ c. c ≡ modport_said text.entry.words.now (I.modports instances.now) contents at port.now (option_map (λ e. e.now) value.entry)) }
{
    let fault = match lender(text.words, &contents, at, port, value) {
        Some(declared) => unknown_modport(text.words, instances, declared, member_in(value))?,
        None => None,
    };
    contents.said_if(fault)
}

/// The scope behind the use of a name with one member and nothing else, where an expression is that.
fn lone_used(
    alloc: Global,
    text: Text<'_>,
    contents: Contents,
    value: Option<&Expr>,
) -> Result<Contents, NoMemory>
    ensures { IfOk result (λ c. c ≡ lone_used text.entry.packages.now text.entry.words.now contents (option_map (λ e. e.now) value.entry)) }
{
    let Some(value) = value else {
        return Ok(contents);
    };
    match lone(value) {
        Some(_) => names_in_value(alloc, text, contents, value),
        None => Ok(contents),
    }
}

/// The scope behind the connection of a port to an argument.
fn port_said<I: Instances>(
    alloc: Global,
    text: Text<'_>,
    contents: Contents,
    instances: &I,
    at: u32,
    port: &Port,
    argument: &Arg,
) -> Result<Contents, NoMemory>
    ensures { IfOk result (λ c. c ≡ port_said text.entry.packages.now text.entry.words.now (I.modports instances.now) at contents port.now argument.now) }
{
    let value = argument_value(argument);
    match &port.face {
        Some(_) => modport_said(text, contents, instances, at, &port.name, value),
        None => lone_used(alloc, text, contents, value),
    }
}

/// The argument at a place in the connections of an instance.
fn argument_at(instance: &Instance, place: usize) -> Option<&Arg>
    ensures { option_map (λ a. a.now) result ≡ slice_get instance.now.connections.arguments.items.items place }
{
    instance.connections.arguments.as_slice().get(place)
}

/// What a pair gives its port, where that is an interface port.
fn pair_face<I: Instances>(
    words: &[Word],
    contents: &Contents,
    instances: &I,
    ports: &[Port],
    instance: &Instance,
    pair: Pair,
) -> Result<Option<FaceGiven>, NoMemory>
    ensures { IfOk result (λ g. g ≡ pair_face words.now (I.modports instances.now) contents.now ports.now instance.now pair) }
{
    let Some(port) = ports.get(pair.port) else {
        return Ok(None);
    };
    match argument_at(instance, pair.argument) {
        Some(argument) => port_face(words, contents, instances, instance.name, port, argument),
        None => Ok(None),
    }
}

/// What ports are given, and one thing more, where there is one.
fn and_face(faces: List<FaceGiven>, one: Option<FaceGiven>) -> Result<List<FaceGiven>, NoMemory>
    ensures { IfOk result (λ all. all ≡ and_face faces one) }
{
    let Some(one) = one else {
        return Ok(faces);
    };
    let mut faces = faces.into_vec();
    faces.push(one)?;
    Ok(List::of(faces))
}

/// What ports are given, and what a pair gives its port.
fn with_pair_face<I: Instances>(
    words: &[Word],
    contents: &Contents,
    instances: &I,
    ports: &[Port],
    instance: &Instance,
    faces: List<FaceGiven>,
    pair: Pair,
) -> Result<List<FaceGiven>, NoMemory>
    ensures { IfOk result (λ all. all ≡ with_pair_face words.now (I.modports instances.now) contents.now ports.now instance.now faces pair) }
{
    let one = pair_face(words, contents, instances, ports, instance, pair)?;
    and_face(faces, one)
}

/// What pairs give interface ports (IEEE 1800-2017, 25.3 and 25.5): each is given the interface through its own modport, else through the
/// one in its connection, else through that of the interface port to which it is connected. It is given nothing through a modport that is
/// not there, nor by a port that is connected to nothing that fits.
pub(crate) fn faces_given<I: Instances>(
    alloc: Global,
    words: &[Word],
    contents: &Contents,
    instances: &I,
    ports: &[Port],
    instance: &Instance,
    pairs: &[Pair],
) -> Result<List<FaceGiven>, NoMemory>
    ensures { IfOk result (λ faces. faces ≡ faces_given words.now (I.modports instances.now) contents.now ports.now instance.now pairs.now) }
{
    let mut faces = List::of(Vec::new(alloc));
    'pairs: for pair in pairs {
        faces = with_pair_face(words, contents, instances, ports, instance, faces, *pair)?;
    }
    Ok(faces)
}

/// The scope behind a pair.
fn pair_said<I: Instances>(
    alloc: Global,
    text: Text<'_>,
    contents: Contents,
    instances: &I,
    ports: &[Port],
    instance: &Instance,
    pair: Pair,
) -> Result<Contents, NoMemory>
    ensures { IfOk result (λ c. c ≡ pair_said text.entry.packages.now text.entry.words.now (I.modports instances.now) ports.now instance.now contents pair) }
{
    let at = instance.name;
    let Some(port) = ports.get(pair.port) else {
        return Ok(contents);
    };
    match argument_at(instance, pair.argument) {
        Some(argument) => port_said(alloc, text, contents, instances, at, port, argument),
        None => Ok(contents),
    }
}

/// The scope behind pairs, as far as names with one member and nothing else stand in them (IEEE 1800-2017, 23.6, 25.3 and 25.5). Connected to
/// an interface port the member is a modport, and it is said where the interface does not have it (E11). Connected to another port they are
/// names as elsewhere.
pub(crate) fn pairs_said<I: Instances>(
    alloc: Global,
    text: Text<'_>,
    contents: Contents,
    instances: &I,
    ports: &[Port],
    instance: &Instance,
    pairs: &[Pair],
) -> Result<Contents, NoMemory>
    ensures { IfOk result (λ c. c ≡ pairs_said text.entry.packages.now text.entry.words.now (I.modports instances.now) ports.now instance.now contents pairs.now) }
{
    let mut contents = contents;
    'pairs: for pair in pairs {
        contents = pair_said(alloc, text, contents, instances, ports, instance, *pair)?;
    }
    Ok(contents)
}
