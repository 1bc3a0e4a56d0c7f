//! Nets that are declared by their uses.
ghost use Rattle.std.specs.Prelude.{◌≡◌, IfOk};
ghost use Rattle.sve_scope.specs.Lookup.{meaning_of};
ghost use Rattle.sve_known.specs.Naming.{name_at};
ghost use Rattle.sve_type_rule.specs.Outcomes.{scalar};
ghost use Rattle.sve_child.specs.Nets.{implied_net, is_something, makes_nets, net_named, net_tokens, net_tokens_of_none, no_net, stands_for_something};

use std::alloc::Global;
use sve_around::Instances;
use sve_bytes::{List, Name, NetType, NoMemory, Path};
use sve_contents::Contents;
use sve_facts::{ImplicitNet, Port};
use sve_instance::{connection_tokens, unknown_tokens};
use sve_known::name_at;
use sve_scope::{Found, SharedType, What, lookup};
use sve_scoped::{Text, declared_at};
use sve_tree::{Instance, Word};
use sve_types::{Base, Ty, Vec_};

/// What the use of a name leaves that may declare a net.
#[derive(Drop)]
pub struct Implied {
    /// The scope, and what is to be said of it.
    pub contents: Contents,
    /// The net, where one is declared.
    pub net: Option<ImplicitNet>,
}

/// Whether lookup found something.
fn is_something(found: Found<'_>) -> bool
    ensures { result ≡ is_something (meaning_of found.entry) }
{
    match found {
        Found::Local(_) => true,
        Found::Imported(_, _, _) => true,
        Found::Two(_, _) => true,
        Found::None => false,
    }
}

/// Whether the name at a token stands for something there, as far as the text of the scope was read (IEEE 1800-2017, 23.9 and 26.3): a
/// declaration, or a name of a package or of two. A use of one that does not may declare a net (6.10). It is so of a token without a
/// name. It takes no memory.
pub fn stands_for_something(words: &[Word], contents: &Contents, token: u32) -> bool
    ensures { result ≡ stands_for_something words.now contents.now token }
{
    match name_at(words, token) {
        Some(name) => is_something(lookup(&contents.scope, &contents.around, name, token)),
        None => true,
    }
}

/// Whether uses of names declare nets where this is in force.
fn makes_nets(net: NetType) -> bool
    ensures { result ≡ makes_nets net }
{
    match net {
        NetType::None => false,
        _ => true,
    }
}

/// A bit of four states.
fn scalar(alloc: Global) -> Result<SharedType, NoMemory>
    ensures { IfOk result (λ t. t ≡ scalar) }
{
    let scalar = Ty {
        base: Base::Vector(Vec_::Logic, false),
        packed: List::of(Vec::new(alloc)),
        unpacked: List::of(Vec::new(alloc)),
    };
    SharedType::of(alloc, scalar)
}

/// No net is declared.
fn no_net(contents: Contents) -> Implied
    ensures { result ≡ no_net contents }
{
    Implied {
        contents,
        net: None,
    }
}

/// The net of a name that is declared in the scope of a path.
fn net_of(alloc: Global, path: &Path, name: &Name, token: u32) -> Result<ImplicitNet, NoMemory>
    ensures { IfOk result (λ n. n ≡ record { scope = path.now; name = name.now; token = token }) }
{
    Ok(ImplicitNet {
        scope: path.copy(alloc)?,
        name: name.copy()?,
        token,
    })
}

/// The name at a token is declared as a net.
fn net_named(
    alloc: Global,
    words: &[Word],
    contents: Contents,
    path: &Path,
    token: u32,
) -> Result<Implied, NoMemory>
    ensures { IfOk result (λ i. i ≡ net_named words.now contents path.now token (name_at words.now token)) }
{
    let Some(name) = name_at(words, token) else {
        return Ok(no_net(contents));
    };
    let net = net_of(alloc, path, name, token)?;
    let what = What::Net(scalar(alloc)?);
    let contents = declared_at(words, contents, token, what, token)?;
    Ok(Implied {
        contents,
        net: Some(net),
    })
}

/// What the use of the name at a token leaves that stands for nothing, in the scope of a path of the body, where this net type is in
/// force (IEEE 1800-2017, 6.10 and 22.8): a net of one bit of four states is declared there, which is seen from that token on. Where it
/// is `none`, or where no name stands at the token, nothing is declared.
///
/// # Errors
/// For want of memory alone.
pub fn implied_net(
    alloc: Global,
    words: &[Word],
    contents: Contents,
    path: &Path,
    token: u32,
    net: NetType,
) -> Result<Implied, NoMemory>
    ensures { IfOk result (λ i. i ≡ implied_net words.now contents path.now token net) }
{
    if makes_nets(net) {
        net_named(alloc, words, contents, path, token)
    } else {
        Ok(no_net(contents))
    }
}

/// The tokens of the names in the connections of an instance that may declare nets, in the order of the text, where its specialization
/// has these ports (IEEE 1800-2017, 6.10 and 23.3.2): each plain name by itself that stands for nothing.
///
/// # Errors
/// For want of memory alone.
pub fn net_tokens<I: Instances>(
    alloc: Global,
    text: Text<'_>,
    contents: &Contents,
    instances: &I,
    ports: &[Port],
    instance: &Instance,
) -> Result<Vec<u32>, NoMemory>
    ensures { IfOk result (λ tokens. tokens.items ≡ net_tokens text.entry.packages.now text.entry.words.now (I.interfaces instances.now) contents.now ports.now instance.now) }
{
    connection_tokens(alloc, text, contents, instances, ports, instance)
}

/// The same tokens of an instance without a specialization.
///
/// # Errors
/// For want of memory alone.
pub fn net_tokens_of_none<I: Instances>(
    alloc: Global,
    text: Text<'_>,
    contents: &Contents,
    instances: &I,
    instance: &Instance,
) -> Result<Vec<u32>, NoMemory>
    ensures { IfOk result (λ tokens. tokens.items ≡ net_tokens_of_none text.entry.packages.now text.entry.words.now (I.interfaces instances.now) contents.now instance.now) }
{
    unknown_tokens(alloc, text, contents, instances, instance)
}
