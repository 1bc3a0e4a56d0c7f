//! What the arguments so far connect.
ghost use Rattle.std.specs.Prelude.{◌≡◌, IfOk};
ghost use Rattle.sve_connect.specs.Links.{counted, free_links, in_form, is_free, linked, no_linking, noted, with_form, with_nets, with_star};

use crate::{Around, Net};
use std::alloc::Global;
use sve_bytes::{List, Name, NoMemory};
use sve_diag::{Code, Note};
use sve_facts::Port;
use sve_tree::Expr;

/// What a port is connected to.
#[derive(Clone, Copy, PartialEq, Eq)]
pub(crate) enum Link {
    /// No argument so far names it, or stands in its place.
    Free,
    /// An argument says that it is connected to nothing.
    Nothing,
    /// The argument at this place of the list.
    To(usize),
    /// An argument that was said to be wrong.
    Wrong,
}

/// An argument `.*`: its token, and its place in the list.
#[derive(Clone, Copy)]
pub(crate) struct Star {
    pub(crate) token: u32,
    pub(crate) place: usize,
}

/// What the arguments so far connect.
#[derive(Drop)]
pub(crate) struct Linking {
    /// What each port is connected to, in the order of the ports.
    pub(crate) links: List<Link>,
    /// Whether the first argument is by order, where there is one.
    pub(crate) form: Option<bool>,
    /// The place of the port that the next argument by order connects.
    pub(crate) next: usize,
    /// The argument `.*`, where there is one.
    pub(crate) star: Option<Star>,
    pub(crate) nets: List<Net>,
    pub(crate) notes: List<Note>,
}

/// Ports that no argument connects.
fn free_links(alloc: Global, ports: &[Port]) -> Result<List<Link>, NoMemory>
    ensures { IfOk result (λ links. links ≡ free_links ports.now) }
{
    let mut links = Vec::new(alloc);
    'ports: for port in ports {
        links.push(Link::Free)?;
    }
    Ok(List::of(links))
}

/// No argument so far.
pub(crate) fn no_linking(alloc: Global, ports: &[Port]) -> Result<Linking, NoMemory>
    ensures { IfOk result (λ l. l ≡ no_linking ports.now) }
{
    Ok(Linking {
        links: free_links(alloc, ports)?,
        form: None,
        next: 0,
        star: None,
        nets: List::of(Vec::new(alloc)),
        notes: List::of(Vec::new(alloc)),
    })
}

/// Whether there is a port at a place, and no argument connects it so far.
pub(crate) fn is_free(links: &[Link], place: usize) -> bool
    ensures { result ≡ is_free links.now place }
{
    match links.get(place) {
        Some(Link::Free) => true,
        Some(Link::Nothing) => false,
        Some(Link::To(_)) => false,
        Some(Link::Wrong) => false,
        None => false,
    }
}

/// A port is connected to this.
pub(crate) fn linked(linking: Linking, place: usize, link: Link) -> Linking
    ensures { result ≡ linked linking place link }
{
    if linking.links.items().len() <= place {
        return linking;
    }
    let Linking {
        links,
        form,
        next,
        star,
        nets,
        notes,
    } = linking;
    let mut links = links.into_vec();
    links[place] = link;
    Linking {
        links: List::of(links),
        form,
        next,
        star,
        nets,
        notes,
    }
}

/// A note more, at a token of the chunk of the instance.
pub(crate) fn noted<A: Around>(
    around: &A,
    linking: Linking,
    token: u32,
    code: Code,
    arg: Option<Name>,
) -> Result<Linking, NoMemory>
    ensures { IfOk result (λ l. l ≡ noted (A.seen around.now) linking token code arg) }
{
    let mut linking = linking;
    let mut notes = linking.notes.into_vec();
    notes.push(Note {
        file: around.file().copy()?,
        chunk: around.chunk(),
        token,
        code,
        arg,
    })?;
    linking.notes = List::of(notes);
    Ok(linking)
}

/// The uses of names in an expression that declare nets, behind those before it.
pub(crate) fn with_nets<A: Around>(
    around: &A,
    linking: Linking,
    expr: &Expr,
) -> Result<Linking, NoMemory>
    ensures { IfOk result (λ l. l ≡ with_nets (A.seen around.now) linking expr.now) }
{
    let mut linking = linking;
    let mut nets = linking.nets.into_vec();
    around.add_nets(expr, &mut nets)?;
    linking.nets = List::of(nets);
    Ok(linking)
}

/// One port more is connected by order.
pub(crate) fn counted(linking: Linking) -> Linking
    ensures { result ≡ counted linking }
{
    let mut linking = linking;
    linking.next = linking.next.saturating_add(1);
    linking
}

/// Whether an argument is of the form of the first.
pub(crate) fn in_form(form: Option<bool>, by_order: bool) -> bool
    ensures { result ≡ in_form form by_order }
{
    match form {
        Some(true) => by_order,
        Some(false) => !by_order,
        None => true,
    }
}

/// The arguments are of this form.
pub(crate) fn with_form(linking: Linking, by_order: bool) -> Linking
    ensures { result ≡ with_form linking by_order }
{
    let mut linking = linking;
    linking.form = Some(by_order);
    linking
}

/// The ports that no argument names are connected by their names.
pub(crate) fn with_star(linking: Linking, star: Star) -> Linking
    ensures { result ≡ with_star linking star }
{
    let mut linking = linking;
    linking.star = Some(star);
    linking
}
