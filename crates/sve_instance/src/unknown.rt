//! An instance without a specialization: of a definition that is not there, or whose name was declared before.
ghost use Rattle.std.specs.Prelude.{◌≡◌, ◌++◌, IfOk, OnOk, map};
ghost use Rattle.std.specs.List.{flat_map};
ghost use Rattle.sve_instance.specs.Around.{seen_in, token_of_net};
ghost use Rattle.sve_known.specs.Naming.{name_at};
ghost use Rattle.sve_instance.specs.Unknown.{argument_nets, instance_nets, is_there, named_where, unknown_argument, unknown_arguments, with_unknown};

use crate::known::{surroundings, tokens_of};
use std::alloc::Global;
use sve_around::Instances;
use sve_bytes::{Name, NoMemory};
use sve_connect::{Around, Net, Thing};
use sve_contents::Contents;
use sve_diag::Code;
use sve_known::name_at;
use sve_scope::What;
use sve_scoped::{Text, declared_at};
use sve_tree::{Arg, Instance, Word};

/// Adds the uses of names in an argument that declare nets.
#[tactic(auto, unfolding(crate::specs::Unknown::argument_nets))]
fn add_nets<A: Around>(around: &A, argument: &Arg, nets: &mut Vec<Net>) -> Result<(), NoMemory>
    ensures { OnOk result (nets.new.items ≡ nets.old.items ++ argument_nets (A.seen around.now) argument.now) }
{
    match argument {
        Arg::Named { value, .. } => around.add_nets(value, nets),
        Arg::Ordered { value } => around.add_nets(value, nets),
        Arg::Wildcard { .. } => Ok(()),
        Arg::Implicit { .. } => Ok(()),
        Arg::Unconnected { .. } => Ok(()),
        Arg::Empty => Ok(()),
    }
}

/// The uses of names in arguments that declare nets.
fn nets_in<A: Around>(alloc: Global, around: &A, arguments: &[Arg]) -> Result<Vec<Net>, NoMemory>
    ensures { IfOk result (λ nets. nets.items ≡ flat_map (argument_nets (A.seen around.now)) arguments.now) }
{
    let mut nets = Vec::new(alloc);
    for argument in arguments {
        add_nets(around, argument, &mut nets)?;
    }
    Ok(nets)
}

/// The tokens of the names in the connections of an instance without a specialization that may make nets, in the order of the text
/// (IEEE 1800-2017, 6.10).
///
/// # Errors
/// For want of memory alone.
pub fn unknown_tokens<I: Instances>(
    alloc: Global,
    text: Text<'_>,
    contents: &Contents,
    instances: &I,
    instance: &Instance,
) -> Result<Vec<u32>, NoMemory>
    ensures { IfOk result (λ tokens. tokens.items ≡ map token_of_net (instance_nets (seen_in text.entry.packages.now text.entry.words.now (I.interfaces instances.now) instance.now.name contents.now) instance.now)) }
{
    let around = surroundings(alloc, text, contents, instances, instance.name);
    let nets = nets_in(alloc, &around, instance.connections.arguments.as_slice())?;
    tokens_of(alloc, nets.as_slice())
}

/// Whether a name stands for something at the instance.
fn is_there<A: Around>(around: &A, name: &Name) -> bool
    ensures { result ≡ is_there ((A.seen around.now).thing name.now) }
{
    match around.thing(name) {
        Thing::Unknown => false,
        Thing::Data(_) => true,
        Thing::Interface(_) => true,
        Thing::Other => true,
    }
}

/// Whether a name stands for something at an instance where the text of a scope was read so far.
fn is_there_in<I: Instances>(
    alloc: Global,
    text: Text<'_>,
    contents: &Contents,
    instances: &I,
    at: u32,
    name: &Name,
) -> bool
    ensures { result ≡ is_there ((seen_in text.entry.packages.now text.entry.words.now (I.interfaces instances.now) at contents.now).thing name.now) }
{
    let around = surroundings(alloc, text, contents, instances, at);
    is_there(&around, name)
}

/// The scope behind a name that is connected by itself at a token: it is used, or it is said that it stands for nothing (E09).
fn named_where<I: Instances>(
    alloc: Global,
    text: Text<'_>,
    contents: Contents,
    instances: &I,
    at: u32,
    token: u32,
) -> Result<Contents, NoMemory>
    ensures { IfOk result (λ c. c ≡ named_where (seen_in text.entry.packages.now text.entry.words.now (I.interfaces instances.now) at) text.entry.words.now contents token (name_at text.entry.words.now token)) }
{
    let Some(name) = name_at(text.words, token) else {
        return Ok(contents);
    };
    if is_there_in(alloc, text, &contents, instances, at, name) {
        contents.with_use(text.words, token)
    } else {
        contents.remarked(token, Code::E09, name.copy()?)
    }
}

/// The scope behind an argument.
#[tactic(auto, unfolding(crate::specs::Unknown::unknown_argument))]
fn unknown_argument<I: Instances>(
    alloc: Global,
    text: Text<'_>,
    contents: Contents,
    instances: &I,
    at: u32,
    argument: &Arg,
) -> Result<Contents, NoMemory>
    ensures { IfOk result (λ c. c ≡ unknown_argument (seen_in text.entry.packages.now text.entry.words.now (I.interfaces instances.now) at) text.entry.words.now contents argument.now) }
{
    match argument {
        Arg::Implicit { name, .. } => named_where(alloc, text, contents, instances, at, *name),
        Arg::Wildcard { .. } => Ok(contents),
        Arg::Unconnected { .. } => Ok(contents),
        Arg::Named { .. } => Ok(contents),
        Arg::Ordered { .. } => Ok(contents),
        Arg::Empty => Ok(contents),
    }
}

/// The scope behind arguments, one after another.
fn unknown_arguments<I: Instances>(
    alloc: Global,
    text: Text<'_>,
    contents: Contents,
    instances: &I,
    at: u32,
    arguments: &[Arg],
) -> Result<Contents, NoMemory>
    ensures { IfOk result (λ c. c ≡ unknown_arguments (seen_in text.entry.packages.now text.entry.words.now (I.interfaces instances.now) at) text.entry.words.now contents arguments.now) }
{
    let mut contents = contents;
    'arguments: for argument in arguments {
        contents = unknown_argument(alloc, text, contents, instances, at, argument)?;
    }
    Ok(contents)
}

/// What an instance without a specialization leaves (IEEE 1800-2017, 23.3.2): its name is declared, though it is no child. A name that
/// is connected by itself, as `.n`, is used, and where it stands for nothing that is said (E09); the names in the expressions of other
/// connections are for whoever resolves uses.
///
/// # Errors
/// For want of memory alone.
pub fn with_unknown<I: Instances>(
    alloc: Global,
    text: Text<'_>,
    contents: Contents,
    instances: &I,
    instance: &Instance,
) -> Result<Contents, NoMemory>
    ensures { IfOk result (λ c. c ≡ with_unknown (seen_in text.entry.packages.now text.entry.words.now (I.interfaces instances.now) instance.now.name) text.entry.words.now contents instance.now) }
{
    let name = instance.name;
    let arguments = instance.connections.arguments.as_slice();
    let contents = unknown_arguments(alloc, text, contents, instances, name, arguments)?;
    declared_at(text.words, contents, name, What::Instance, name)
}
