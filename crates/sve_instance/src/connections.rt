//! An instance with a specialization.
ghost use Rattle.std.specs.Prelude.{◌≡◌, IfOk, map};
ghost use Rattle.sve_instance.specs.Around.{seen_in, token_of_net};
ghost use Rattle.sve_instance.specs.Connections.{connected_in, connections_left, named_itself, names_used, with_connections};

use crate::known::{surroundings, tokens_of};
use std::alloc::Global;
use sve_around::Instances;
use sve_bytes::{List, Name, NoMemory};
use sve_connect::{Connected, Pair, connect};
use sve_contents::Contents;
use sve_facts::Port;
use sve_scope::What;
use sve_scoped::{Text, declared_at};
use sve_tree::{Arg, Instance, Word};

/// What an instance with a specialization leaves.
#[derive(Drop)]
pub struct Connections {
    /// The scope, and what is to be said of it.
    pub contents: Contents,
    /// The ports that are connected as they may be, in their order.
    pub pairs: List<Pair>,
    /// The ports that are connected to nothing, in their order.
    pub unconnected: List<Name>,
}

/// How an instance connects its ports.
fn connected_in<I: Instances>(
    alloc: Global,
    text: Text<'_>,
    contents: &Contents,
    instances: &I,
    ports: &[Port],
    instance: &Instance,
) -> Result<Connected, NoMemory>
    ensures { IfOk result (λ c. c ≡ connected_in (seen_in text.entry.packages.now text.entry.words.now (I.interfaces instances.now) instance.now.name contents.now) ports.now instance.now) }
{
    let at = instance.name;
    let around = surroundings(alloc, text, contents, instances, at);
    connect(alloc, ports, &instance.connections, &around, at)
}

/// The tokens of the names in the connections of an instance that may make nets, in the order of the text (IEEE 1800-2017, 6.10): each
/// plain name by itself that stands for nothing, whatever is applied to it, but for the connections of interface ports.
///
/// # Errors
/// For want of memory alone.
pub fn connection_tokens<I: Instances>(
    alloc: Global,
    text: Text<'_>,
    contents: &Contents,
    instances: &I,
    ports: &[Port],
    instance: &Instance,
) -> Result<Vec<u32>, NoMemory>
    ensures { IfOk result (λ tokens. tokens.items ≡ map token_of_net (connected_in (seen_in text.entry.packages.now text.entry.words.now (I.interfaces instances.now) instance.now.name contents.now) ports.now instance.now).nets) }
{
    let connected = connected_in(alloc, text, contents, instances, ports, instance)?;
    tokens_of(alloc, connected.nets.items())
}

/// The scope behind an argument: a name that is connected by itself is used.
#[tactic(auto, unfolding(crate::specs::Connections::named_itself))]
fn named_itself(words: &[Word], contents: Contents, argument: &Arg) -> Result<Contents, NoMemory>
    ensures { IfOk result (λ c. c ≡ named_itself words.now contents argument.now) }
{
    match argument {
        Arg::Implicit { name, .. } => contents.with_use(words, *name),
        Arg::Wildcard { .. } => Ok(contents),
        Arg::Unconnected { .. } => Ok(contents),
        Arg::Named { .. } => Ok(contents),
        Arg::Ordered { .. } => Ok(contents),
        Arg::Empty => Ok(contents),
    }
}

/// The scope behind arguments, one after another.
fn names_used(words: &[Word], contents: Contents, arguments: &[Arg]) -> Result<Contents, NoMemory>
    ensures { IfOk result (λ c. c ≡ names_used words.now contents arguments.now) }
{
    let mut contents = contents;
    'arguments: for argument in arguments {
        contents = named_itself(words, contents, argument)?;
    }
    Ok(contents)
}

/// What is found of an instance, in its scope.
fn connections_left(
    words: &[Word],
    contents: Contents,
    instance: &Instance,
    connected: Connected,
) -> Result<Connections, NoMemory>
    ensures { IfOk result (λ c. c ≡ connections_left words.now contents instance.now connected) }
{
    let Connected {
        pairs,
        unconnected,
        nets: _,
        notes,
    } = connected;
    let name = instance.name;
    let contents = contents.with_notes(notes)?;
    let contents = names_used(words, contents, instance.connections.arguments.as_slice())?;
    let contents = declared_at(words, contents, name, What::Instance, name)?;
    Ok(Connections {
        contents,
        pairs,
        unconnected,
    })
}

/// What an instance leaves whose specialization has these ports (IEEE 1800-2017, 23.3.2 and 25.3): its name is declared, and what is
/// wrong with its connections (E07 to E10) is said. A name that is connected by itself, as `.n`, is used; the names in the expressions
/// of other connections are for whoever resolves uses.
///
/// # Errors
/// For want of memory alone.
pub fn with_connections<I: Instances>(
    alloc: Global,
    text: Text<'_>,
    contents: Contents,
    instances: &I,
    ports: &[Port],
    instance: &Instance,
) -> Result<Connections, NoMemory>
    ensures { IfOk result (λ c. c ≡ with_connections (seen_in text.entry.packages.now text.entry.words.now (I.interfaces instances.now) instance.now.name) text.entry.words.now contents ports.now instance.now) }
{
    let connected = connected_in(alloc, text, &contents, instances, ports, instance)?;
    connections_left(text.words, contents, instance, connected)
}
